//! Which call of a disk is cut, and how much of it is done.

ghost use Rattle.std.specs.Prelude.{◌≡◌, ◌+◌, None, Some, min};
ghost use Rattle.memory_disk.specs.Calls.{fate_of, was_cut};

/// The call at which a disk is cut, and how much of it is done.
#[derive(Clone, Copy, Debug, PartialEq, Eq)]
pub struct Cut {
    /// The number of calls before it.
    pub calls: u64,
    /// The number of octets that an append writes.
    pub octets: usize,
    /// Whether a renewal is done, or the next chapter has begun.
    pub is_done: bool,
}

/// What becomes of a call.
#[derive(Clone, Copy, Debug, PartialEq, Eq)]
pub enum Fate {
    /// It is made.
    Made,
    /// It is cut.
    Cut(Cut),
    /// It comes too late: the disk was cut before.
    Late,
}

/// The calls of a disk, and where it is cut.
#[derive(Clone, Copy, Debug)]
pub struct Calls {
    /// The number of calls so far.
    pub count: u64,
    /// Where it is cut, if it is.
    pub cut: Option<Cut>,
}

impl Calls {
    /// Returns no calls, none of which is cut.
    pub fn new() -> Calls
        ensures { result ≡ record { count = 0; cut = None } }
    {
        Calls {
            count: 0,
            cut: None,
        }
    }

    /// Returns no calls, one of which will be cut there.
    pub fn cut_at(cut: Cut) -> Calls
        ensures { result ≡ record { count = 0; cut = Some cut } }
    {
        Calls {
            count: 0,
            cut: Some(cut),
        }
    }

    /// Counts the next call, and returns what becomes of it.
    pub fn next(&mut self) -> Fate
        ensures fate { result ≡ fate_of self.old.count self.old.cut }
        ensures count { self.new.count ≡ min (self.old.count + 1) u64.MAX }
        ensures cut { self.new.cut ≡ self.old.cut }
    {
        let fate = match self.cut {
            Some(cut) if self.count == cut.calls => Fate::Cut(cut),
            Some(cut) if self.count > cut.calls => Fate::Late,
            _ => Fate::Made,
        };
        self.count = self.count.saturating_add(1);
        fate
    }

    /// Was a call cut?
    pub fn is_cut(&self) -> bool
        ensures { result ≡ was_cut self.now.count self.now.cut }
    {
        match self.cut {
            Some(cut) => self.count > cut.calls,
            None => false,
        }
    }
}
