// The state but for the actors' records, in arrays of fixed length: the mailboxes, the mutexes' queues and the journal.
ghost use Rattle.std.specs.Prelude.{◌≡◌, ◌<◌, ◌≤◌, ◌^◌, ℕ, length, get_or, replicate};
ghost use Rattle.state.specs.Rooms.{MailRoom, QueueRoom, JournalRoom};

// The communications, a number each; the ports' logs; and the logs' ends.
#[derive(Clone, Copy)]
pub struct Mail {
    pub comms: [u64; 256],
    pub log: [u8; 4096],
    pub ends: [usize; 32],
    pub ghost room: { MailRoom comms log ends },
}

// The mutexes' queues.
#[derive(Clone, Copy)]
pub struct Queues {
    pub bytes: [u8; 72],
    pub ghost room: { QueueRoom bytes },
}

// The journal: its entries, and how many are.
#[derive(Clone, Copy)]
pub struct Journal {
    pub count: usize,
    pub entries: [usize; 256],
    pub ghost room: { JournalRoom count entries },
}

// The state but for the actors' records.
#[derive(Clone, Copy)]
pub struct Site {
    pub mail: Mail,
    pub queues: Queues,
    pub journal: Journal,
}

impl Site {
    ghost use Rattle.state.specs.State.{Empty};

    // That of a fresh site.
    #[tactic(auto, using(crate::proofs::Fresh::mail_zero, crate::proofs::Fresh::queues_zero))]
    pub fn fresh() -> Self
        ensures { Empty result }
    {
        Site {
            mail: Mail {
                comms: [0; 256],
                log: [0; 4096],
                ends: [0; 32],
            },
            queues: Queues { bytes: [0; 72] },
            journal: Journal {
                count: 0,
                entries: [0; 256],
            },
        }
    }

    // A fresh one again: what the logs hold, and the journal's entries, plays no part.
    #[tactic(auto, using(crate::proofs::Fresh::comms_cleared, crate::proofs::Fresh::ends_cleared, crate::proofs::Fresh::queues_zero))]
    pub fn clear(&mut self)
        ensures { Empty self.new }
    {
        self.mail.comms = [0; 256];
        self.mail.ends = [0; 32];
        self.queues.bytes = [0; 72];
        self.journal.count = 0;
    }
}
