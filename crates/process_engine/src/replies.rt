// What the queueing of a piece answers.
use process_core::Piece;

/// What the queueing of a piece answers.
#[derive(Drop)]
pub enum Queue {
    /// It takes effect with the next flush, unless its process begins to complete before.
    Queued,
    /// Values can bar it, and a queued act that runs is at the same key of the same subsystem.
    Full(Piece),
    /// It was refused, and may be tried again; it was refused so often.
    Retry(u8),
    /// It was refused, and its process goes another way or back.
    Failed,
    /// It took effect or was refused before, or it is queued.
    Over,
    /// Its process began to complete at this kept event, counted from 1, while the piece was out.
    Dropped(u32),
    /// It was refused as often as it may be tried.
    Exhausted,
    /// The piece is still out.
    NoMemory(Piece),
    /// A call of the rack failed before, when this many events were kept.
    Closed(u32),
}
