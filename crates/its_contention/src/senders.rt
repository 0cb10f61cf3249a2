//! The stations that were counted as senders of a frame that waits.

ghost use Rattle.std.specs.Prelude.{◌≡◌, ◌<◌, ◌≤◌, [], ◌∷◌, length};
ghost use Rattle.its_model.specs.History.{is_among};

use its_gnvalue::Mac;
use std::marker::Model;

/// At most two senders of copies. Contracts see them as a list, the newest first.
#[derive(Drop)]
pub(crate) struct Senders {
    newest: Option<Mac>,
    older: Option<Mac>,
}

impl Model for Senders {
    ghost use Rattle.std.specs.Prelude.{ℕ, List};
    ghost use Rattle.its_contention.specs.Senders.{senders_of};

    ghost Value = { List ℕ };

    ghost view = { λ s. senders_of s.newest s.older };
}

impl Senders {
    /// No sender.
    pub(crate) fn none() -> Senders
        ensures { result ≡ [] }
    {
        Senders {
            newest: None,
            older: None,
        }
    }

    /// How many senders there are.
    pub(crate) fn len(&self) -> usize
        ensures value { result ≡ length self.now }
        ensures bound { result ≤ 2 }
    {
        match (self.newest, self.older) {
            (None, _) => 0,
            (Some(_), None) => 1,
            (Some(_), Some(_)) => 2,
        }
    }

    /// Whether it is among them.
    pub(crate) fn has(&self, sender: Mac) -> bool
        ensures { result ≡ is_among sender self.now }
    {
        match (self.newest, self.older) {
            (None, _) => false,
            (Some(newest), None) => sender == newest,
            (Some(newest), Some(older)) => sender == newest || sender == older,
        }
    }

    /// Adds a sender. There has to be room for it.
    pub(crate) fn add(&mut self, sender: Mac)
        requires { length self.old < 2 }
        ensures { self.new ≡ sender ∷ self.old }
    {
        self.older = self.newest;
        self.newest = Some(sender);
    }
}
