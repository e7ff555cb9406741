ghost use Rattle.master_run.specs.Laws.{EventsKeepLawful, RestIsLawful};

// Laws of the machine: each function does nothing, and its contract is the law.

/// Each event leaves a lawful beginning of a session one, in whatever order events come and whatever their readings are.
pub fn events_keep_lawful()
    ensures { EventsKeepLawful }
{}

/// At rest, a lawful beginning of a session is lawful: its batches are a serial history, and each task ended once.
pub fn rest_is_lawful()
    ensures { RestIsLawful }
{}
