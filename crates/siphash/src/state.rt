ghost use Rattle.std.specs.Prelude.{◌≡◌, ◌<◌};
ghost use Rattle.siphash.specs.SipHash.{mixed, round, initial, absorbed, finished};

use little_endian::read_u64;

/// A secret key.
pub type Key = [u8; 16];

// The four words that the rounds mix.
#[derive(Clone, Copy)]
pub(crate) struct State {
    v0: u64,
    v1: u64,
    v2: u64,
    v3: u64,
}

impl State {
    #[tactic(auto, unfolding(crate::specs::SipHash::initial))]
    pub(crate) fn new(key: &Key) -> Self
        ensures { result ≡ initial key.now }
    {
        let (low, high) = key.split_at(8);
        let k0 = read_u64(low);
        let k1 = read_u64(high);
        Self {
            v0: k0 ^ 0x736f_6d65_7073_6575,
            v1: k1 ^ 0x646f_7261_6e64_6f6d,
            v2: k0 ^ 0x6c79_6765_6e65_7261,
            v3: k1 ^ 0x7465_6462_7974_6573,
        }
    }

    #[tactic(auto, unfolding(crate::specs::SipHash::round))]
    fn round(self) -> Self
        ensures { result ≡ round self }
    {
        let (v0, v1) = mix(self.v0, self.v1, 13);
        let (v2, v3) = mix(self.v2, self.v3, 16);
        let (v2, v1) = mix(v2, v1, 17);
        let (v0, v3) = mix(v0.rotate_left(32), v3, 21);
        Self {
            v0,
            v1,
            v2: v2.rotate_left(32),
            v3,
        }
    }

    // Takes in one word, by two rounds.
    #[tactic(auto, unfolding(crate::specs::SipHash::absorbed))]
    pub(crate) fn absorb(self, word: u64) -> Self
        ensures { result ≡ absorbed self word }
    {
        let state = Self {
            v3: self.v3 ^ word,
            ..self
        };
        let state = state.round().round();
        Self {
            v0: state.v0 ^ word,
            ..state
        }
    }

    // The tag, after four more rounds.
    #[tactic(auto, unfolding(crate::specs::SipHash::finished))]
    pub(crate) fn finish(self) -> u64
        ensures { result ≡ finished self }
    {
        let state = Self {
            v2: self.v2 ^ 0xff,
            ..self
        };
        let Self { v0, v1, v2, v3 } = state.round().round().round().round();
        v0 ^ v1 ^ v2 ^ v3
    }
}

// Two words mixed: their sum, and the second turned and combined with the sum.
fn mix(a: u64, b: u64, by: u32) -> (u64, u64)
    requires positive { 0 < by }
    requires below { by < 64 }
    ensures { result ≡ mixed a b by }
{
    let sum = a.wrapping_add(b);
    (sum, b.rotate_left(by) ^ sum)
}
