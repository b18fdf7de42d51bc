// Threads: what an operand stands for in one, and the thread that a step has advanced.
ghost use Rattle.std.specs.Prelude.{◌≡◌, cond, ◌≤◌, ◌<◌};
ghost use Rattle.masks.specs.Mask.{with, without};
ghost use Rattle.steps.specs.Threads.{no_thread, value, moved_to, onward, masked, bound};

use super::Thread;
use masks::{UserRole, with_role, without_role};

// What stands for no thread.
pub fn no_thread() -> Thread
    ensures { result ≡ no_thread }
{
    Thread {
        user: 0,
        node: 0,
        mask: 0,
        vars: [0; 8],
    }
}

impl Thread {
    // What an operand stands for.
    pub fn value(self, x: u16) -> u16
        ensures { result ≡ value self x }
    {
        if x < 512 {
            return x;
        }
        let k = usize::from(x - 512);
        if k < 8 {
            return self.vars[k];
        }
        0
    }

    // At another node.
    pub fn moved_to(mut self, node: u16) -> Thread
        ensures { result ≡ moved_to self node }
    {
        self.node = node;
        self
    }

    // At its next node.
    pub fn onward(mut self) -> Thread
        requires { self.node < 65535 }
        ensures { result ≡ onward self }
    {
        self.node += 1;
        self
    }

    // Past its on, with the role put in.
    pub fn on(mut self, role: UserRole) -> Thread
        requires { (self.node < 65535) × (role.0 ≤ 16) }
        ensures { result ≡ masked self (with self.mask role.0) }
    {
        self.mask = with_role(self.mask, role);
        self.node += 1;
        self
    }

    // Past its off, with the role taken out.
    pub fn off(mut self, role: UserRole) -> Thread
        requires { self.node < 65535 }
        ensures { result ≡ masked self (without self.mask role.0) }
    {
        self.mask = without_role(self.mask, role);
        self.node += 1;
        self
    }

    // Past its binder: the first free variable takes the value. Where none is free the variables stay. (All eight are stored, without a branch.)
    pub fn bound(mut self, given: u16) -> Thread
        requires { self.node < 65535 }
        ensures { result ≡ bound self given }
    {
        let mut open = true;
        for k in 0..8 {
            let v = self.vars[k];
            let free = open & (v == 0);
            self.vars[k] = if free { given } else { v };
            open = open & !free;
        }
        self.node += 1;
        self
    }
}
