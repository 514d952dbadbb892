//! How long a line is waited for.
ghost use Rattle.std.specs.Prelude.{◌≡◌, ◌-◌, false};
ghost use Rattle.rp_serve.specs.Waiting.{ends_line, ends_within_line, waited_for};
ghost use Rattle.std.specs.List.{list_any};

/// The byte that ends a line.
const LF: u8 = b'\n';

/// How long a line was waited for of which a part has come, in microseconds. The time in which nobody waits doesn't count: that
/// is the node's own.
#[derive(Clone, Copy, Drop)]
pub struct Patience {
    /// How long one line may be waited for.
    pub limit: u64,
    /// How long the line was waited for whose first bytes have come.
    pub waited: u64,
    /// Whether a part of a line has come.
    pub is_within: bool,
}

impl Patience {
    ghost use Rattle.std.specs.Prelude.{◌≡◌, ◌-◌, false};
    ghost use Rattle.rp_serve.specs.Waiting.{ends_within_line, waited_for};

    /// Before the first byte.
    pub fn new(limit: u64) -> Patience
        ensures limit { result.limit ≡ limit }
        ensures waited { result.waited ≡ 0 }
        ensures within { result.is_within ≡ false }
    {
        Patience {
            limit,
            waited: 0,
            is_within: false,
        }
    }

    /// How long the next bytes may be waited for: not at all where that is 0.
    pub fn left(&self) -> u64
        ensures { result ≡ self.now.limit - self.now.waited }
    {
        self.limit.saturating_sub(self.waited)
    }

    /// Bytes have come, for which one waited so long.
    pub fn came(&mut self, bytes: &[u8], took: u64)
        ensures waited { self.new.waited ≡ waited_for self.old.is_within self.old.waited took bytes.now }
        ensures within { self.new.is_within ≡ ends_within_line self.old.is_within bytes.now }
        ensures limit { self.new.limit ≡ self.old.limit }
    {
        self.waited = waited_after(self, bytes, took);
        self.is_within = ends_within_line(self.is_within, bytes);
    }
}

fn waited_after(patience: &Patience, bytes: &[u8], took: u64) -> u64
    ensures { result ≡ waited_for patience.now.is_within patience.now.waited took bytes.now }
{
    if has_line_end(bytes) || !patience.is_within {
        return 0;
    }
    patience.waited.saturating_add(took)
}

fn ends_within_line(before: bool, bytes: &[u8]) -> bool
    ensures { result ≡ ends_within_line before bytes.now }
{
    if bytes.is_empty() {
        return before;
    }
    bytes[bytes.len() - 1] != LF
}

fn has_line_end(bytes: &[u8]) -> bool
    ensures { result ≡ list_any ends_line bytes.now }
{
    bytes.iter().any(|byte| *byte == LF)
}
