//! Up to which time something may be missing of what is kept of a capture.

ghost use Rattle.std.specs.Prelude.{◌≡◌, None};
ghost use Rattle.cap_tap.specs.Lost.{with_lost, lacks};

/// Up to which stamp something had to give way, because too much is kept.
#[derive(Clone, Copy)]
pub(crate) struct Lost {
    last: Option<u64>,
}

impl Lost {
    /// Nothing is missing.
    pub(crate) fn nothing() -> Lost
        ensures { result.last ≡ None }
    {
        Lost { last: None }
    }

    /// Notes that something gave way that was sent at this stamp.
    pub(crate) fn lose(&mut self, stamp: u64)
        ensures { self.new ≡ with_lost self.old stamp }
    {
        let last = match self.last {
            Some(last) if stamp < last => last,
            _ => stamp,
        };
        self.last = Some(last);
    }

    /// Whether something may be missing that was sent at this stamp or later.
    pub(crate) fn may_lack(&self, from: u64) -> bool
        ensures { result ≡ lacks self.now.last from }
    {
        match self.last {
            Some(last) => from <= last,
            None => false,
        }
    }
}
