//! What the check of a record means, proved.
ghost use Rattle.ll_check.specs.Records.{RecordLaw};

/// States that [`check`](crate::check) finds a text right, with `n` entries, exactly if it is the record of `n` events of a channel: of one
/// run of it or more, one after another. Each run is cut into chunks, none of format 1 after one of format 2, which name the channel, the
/// run's settings and how many entries of the run come before them. The lines of a run's entries, in order, read as what the formats of
/// their chunks keep of the entries of its events. Of these events, no rule refuses an item after the events before it in the run; each
/// request has the verdict that it gets at once by then, or has to wait; no reading of the clock is past 2^60 milliseconds; each reply that
/// was handed out is the verdict of a request that is open by then; each request that was closed is open by then; and a run that has taken
/// 2^60 events has no further item, request or reading. It does nothing.
pub fn record_law()
    ensures { RecordLaw }
{}
