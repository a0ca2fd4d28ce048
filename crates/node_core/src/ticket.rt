//! Tickets and receipts, which have to be spent.

ghost use Rattle.std.specs.Prelude.{◌≡◌};

use repl_data::Csn;

/// A CSN that was drawn and is pending. It must be spent: by a commit, or by an abort.
#[derive(Debug)]
pub struct Ticket {
    pub(crate) csn: Csn,
    pub(crate) life: u64,
}

impl Ticket {
    pub fn csn(&self) -> Csn
        ensures { result ≡ self.now.csn }
    {
        self.csn
    }

    /// How often the node had been started when it drew the CSN.
    pub fn life(&self) -> u64
        ensures { result ≡ self.now.life }
    {
        self.life
    }
}

/// A committed change, whose CSN is still pending. It must be spent, by a settle.
#[derive(Debug)]
pub struct Receipt {
    pub(crate) csn: Csn,
    pub(crate) life: u64,
    pub(crate) number: u64,
}

impl Receipt {
    pub fn csn(&self) -> Csn
        ensures { result ≡ self.now.csn }
    {
        self.csn
    }

    /// How often the node had been started at the commit.
    pub fn life(&self) -> u64
        ensures { result ≡ self.now.life }
    {
        self.life
    }

    /// The place of the change among those that the node has taken, counted from 0.
    pub fn number(&self) -> u64
        ensures { result ≡ self.now.number }
    {
        self.number
    }
}
