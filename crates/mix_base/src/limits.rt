//! How much a mixer holds at most.
ghost use Rattle.std.specs.Prelude.{◌≡◌};
ghost use Rattle.mix_base.specs.Limits.{standard};

/// How much a mixer holds at most. Rows and items count those that die, too.
#[derive(Clone, Copy)]
pub struct Limits {
    /// Sources: scenes, groups and inputs.
    pub rows: u32,
    /// Items of all sources together.
    pub items: u32,
    /// Weight of a source: 1 and the weights of the children of all its items.
    pub weight: u32,
    /// How deep scenes and groups lie in one another.
    pub rank: u32,
    /// Open connections.
    pub conns: u32,
    /// Frames in flight.
    pub frames: u32,
    /// Texts that wait for a connection before it is cut.
    pub waiting: u32,
    /// Requests of one batch.
    pub entries: u32,
    /// Pending batches of a connection.
    pub batches: u32,
    /// Holds of all connections together.
    pub holds: u32,
    /// Watches of all connections together.
    pub watches: u32,
    /// Actions of a history.
    pub turns: u64,
    /// Bytes of the text of a history.
    pub bytes: u64,
}

impl Limits {
    /// The limits of every mixer that runs.
    pub fn standard() -> Limits
        ensures value { result ≡ standard }
    {
        Limits {
            rows: 512,
            items: 2048,
            weight: 4096,
            rank: 16,
            conns: 64,
            frames: 4,
            waiting: 4096,
            entries: 256,
            batches: 16,
            holds: 256,
            watches: 256,
            turns: 16_777_216,
            bytes: 1_073_741_824,
        }
    }
}
