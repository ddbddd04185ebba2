// What a later byte does (generate.rs, buckets.rs, hash/checksum.rs).
//
// The first four bytes of an input have no four before them. Each later byte looks back at four: it moves the checksum on and adds one
// to six counters, chosen by six mappings of it and of two of those four. Checksum and four bytes stand in a window, a small struct of
// scalars. The loop here takes the bytes one by one, as the definition does; `leap` has a faster one to the same end.
#![tactic(auto)]

ghost use Rattle.std.specs.Prelude.{◌≡◌, [], ◌∷◌};
ghost use Rattle.pearson.specs.Mapping.{bucket};
ghost use Rattle.counting.specs.Count.{bump_by, bump};
ghost use Rattle.counting.specs.Window.{Ran};

use pearson::Tables;

/// What a loop carries beside the counters: the checksum, and the last four bytes, b3 the nearest.
#[derive(Clone, Copy, Debug, PartialEq, Eq)]
pub struct Window {
    pub checksum: u8,
    pub b0: u8,
    pub b1: u8,
    pub b2: u8,
    pub b3: u8,
}

impl Window {
    ghost use Rattle.counting.specs.Window.{hit};

    // The six counters of a byte b4 that comes to the window.
    #[tactic(auto, unfolding(crate::specs::Count::counted, crate::specs::Window::hit))]
    fn count_six(self, tables: &Tables, counters: &mut [u32; 256], b4: u8)
        ensures { counters.new ≡ hit tables.now.variant self counters.old b4 }
    {
        increment_at(tables, counters, 2, b4, self.b3, self.b2);
        increment_at(tables, counters, 3, b4, self.b3, self.b1);
        increment_at(tables, counters, 5, b4, self.b2, self.b1);
        increment_at(tables, counters, 7, b4, self.b2, self.b0);
        increment_at(tables, counters, 11, b4, self.b3, self.b0);
        increment_at(tables, counters, 13, b4, self.b1, self.b0);
    }

    // One later byte: the checksum, the six counters, and the window moves on.
    #[tactic(auto, unfolding(crate::specs::Count::checked, crate::specs::Window::moved, crate::specs::Window::moves, crate::specs::Window::hits))]
    fn slide(self, tables: &Tables, counters: &mut [u32; 256], b4: u8) -> Self
        ensures { Ran tables.now.variant (b4 ∷ []) counters.old self counters.new result }
    {
        self.count_six(tables, counters, b4);
        Window {
            checksum: tables.b_mapping(0, b4, self.b3, self.checksum),
            b0: self.b1,
            b1: self.b2,
            b2: self.b3,
            b3: b4,
        }
    }
}

/// `k` more at a counter, which rolls over.
#[tactic(auto, unfolding(crate::specs::Count::bump_by))]
pub fn increment_by(counters: &mut [u32; 256], at: u8, k: u32)
    ensures { counters.new ≡ bump_by counters.old at k }
{
    let i = usize::from(at);
    counters[i] = counters[i].wrapping_add(k);
}

// One more at the counter of the variant's mapping of four bytes.
fn increment_at(tables: &Tables, counters: &mut [u32; 256], a: u8, b: u8, c: u8, d: u8)
    ensures { counters.new ≡ bump counters.old (bucket tables.now.variant a b c d) }
{
    increment_by(counters, tables.b_mapping(a, b, c, d), 1);
}

/// The counters and the window after later bytes, one by one.
#[tactic(auto, using(crate::proofs::Laws::runs_none, crate::proofs::Laws::runs_all))]
pub fn one_by_one(counters: &mut [u32; 256], variant: u32, mut w: Window, bytes: &[u8]) -> Window
    ensures { Ran variant bytes.now counters.old w counters.new result }
{
    let tables = Tables::new(variant);
    for &b in bytes {
        w = w.slide(&tables, counters, b);
    }
    w
}
