// Refusals 6, 21 and 7: records that name what isn't there, and juniors that are not lower than their senior.
#![tactic(auto)]

ghost use Rattle.std.specs.Prelude.{◌≡◌, ℕ, ◌+◌, ◌*◌, ◌≤◌, ◌<◌};
ghost use Rattle.format.specs.Answers.{or_else};
ghost use Rattle.format.specs.Header.{Laid};
ghost use Rattle.format.specs.Sections.{place_of};
ghost use Rattle.format.specs.Contents.{contents_at};
ghost use Rattle.tables.specs.Records.{record_fits, number_of, by_offset, refusal_of, section_answer, records_answer};
ghost use Rattle.format.specs.declared.Section.TheVariants.{Users, Roles, Juniors, Kinds, Channels, Sessions};

use format::answers::or_else;
use format::sections::{
    carries, channel, in_count, juniors, part_of, place_of, role, session, user_roles,
};
use format::words::narrow;
use format::{Head, Section, Verdict};
use masks::{ChannelKind, names_only, roles_within};

fn user_fits(file: &[u8], head: Head, n: u16) -> bool
    requires { Laid file.now head }
    ensures { result ≡ record_fits (contents_at file.now head) Users n }
{
    names_only(u32::from(user_roles(file, head, n)), head.count.roles)
}

fn role_fits(file: &[u8], head: Head, n: u16) -> bool
    requires { Laid file.now head }
    ensures { result ≡ record_fits (contents_at file.now head) Roles n }
{
    let it = role(file, head, n);
    names_only(it.sends, head.count.kinds) & names_only(it.receives, head.count.kinds)
}

fn juniors_fit(file: &[u8], head: Head, n: u16) -> bool
    requires { Laid file.now head × (0 < n) }
    ensures { result ≡ record_fits (contents_at file.now head) Juniors n }
{
    names_only(u32::from(juniors(file, head, n)), n - 1)
}

fn channel_fits(file: &[u8], head: Head, n: u16) -> bool
    requires { Laid file.now head }
    ensures { result ≡ record_fits (contents_at file.now head) Channels n }
{
    let it = channel(file, head, n);
    in_count(head.count.users, it.owner) & in_count(head.count.kinds, it.kind.0)
}

fn session_fits(file: &[u8], head: Head, n: u16) -> bool
    requires { Laid file.now head }
    ensures { result ≡ record_fits (contents_at file.now head) Sessions n }
{
    let it = session(file, head, n);
    if !in_count(head.count.users, it.user) {
        return false;
    }
    roles_within(it.mask, user_roles(file, head, it.user))
}

fn record_fits(file: &[u8], head: Head, section: Section, n: u16) -> bool
    requires { Laid file.now head × (0 < n) }
    ensures { result ≡ record_fits (contents_at file.now head) section n }
{
    match section {
        Section::Users => user_fits(file, head, n),
        Section::Roles => role_fits(file, head, n),
        Section::Juniors => juniors_fit(file, head, n),
        Section::Kinds => carries(file, head, ChannelKind(n)).0 <= head.count.kinds,
        Section::Channels => channel_fits(file, head, n),
        Section::Sessions => session_fits(file, head, n),
    }
}

// What refuses a section's record.
fn number_of(section: Section) -> u16
    ensures { result ≡ number_of section }
{
    match section {
        Section::Users => 6,
        Section::Roles => 6,
        Section::Juniors => 21,
        Section::Kinds => 6,
        Section::Channels => 6,
        Section::Sessions => 7,
    }
}

// The place of 6 and 21 is an offset in the file, that of any other a number.
fn by_offset(number: u16) -> bool
    ensures { result ≡ by_offset number }
{
    (number == 6) | (number == 21)
}

// The refusal of a section's record.
fn refusal_of(head: Head, section: Section, n: u16) -> Verdict
    requires { (0 < n) × (place_of head section n < 65536) }
    ensures { result ≡ refusal_of head section n }
{
    let number = number_of(section);
    if by_offset(number) {
        return Verdict {
            number,
            place: narrow(place_of(head, section, n)),
        };
    }
    Verdict { number, place: n }
}

// The first record of a section that does not fit.
fn section_answer(file: &[u8], head: Head, section: Section) -> Verdict
    requires { Laid file.now head }
    ensures { result ≡ section_answer head (contents_at file.now head) section }
{
    for n in 1..=part_of(head.count, section) {
        if !record_fits(file, head, section, n) {
            return refusal_of(head, section, n);
        }
    }
    Verdict::FINE
}

// 6, then 21, then 7.
pub fn records(file: &[u8], head: Head) -> Verdict
    requires { Laid file.now head }
    ensures { result ≡ records_answer head (contents_at file.now head) }
{
    let users = section_answer(file, head, Section::Users);
    let roles = section_answer(file, head, Section::Roles);
    let kinds = section_answer(file, head, Section::Kinds);
    let channels = section_answer(file, head, Section::Channels);
    let juniors = section_answer(file, head, Section::Juniors);
    let sessions = section_answer(file, head, Section::Sessions);
    or_else(
        users,
        or_else(
            roles,
            or_else(kinds, or_else(channels, or_else(juniors, sessions))),
        ),
    )
}
