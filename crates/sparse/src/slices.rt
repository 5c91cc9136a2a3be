// Reading and writing lent slices. What a slice holds, and what it goes by, leaves and enters here as its kind.
// After inlining none of these costs anything.
ghost use Rattle.std.specs.Prelude.{◌≡◌, ℕ, ◌<◌, ◌≤◌, ◌++◌, length, get_or, set, replicate, drop};
ghost use Rattle.graph.specs.Permutations.{Permutes, inverse};
ghost use Rattle.std.specs.Option.{option_map_or};
ghost use Rattle.sparse.specs.Buffers.{filled, zeroed};
ghost use Rattle.sparse.specs.Limits.{none};

use super::{Column, NONE, NewRow, OriginalRow};

// A kind of number, as it stands inside a slice.
pub trait Kind: Copy {
    ghost value: { Self → ℕ };

    fn of(number: u32) -> Self
        ensures { value result ≡ number };

    fn number(self) -> u32
        ensures { result ≡ value self };
}

// A place in a slice, or a count.
impl Kind for u32 {
    ghost value = { λ n. n };

    fn of(number: u32) -> u32 {
        number
    }

    fn number(self) -> u32 {
        self
    }
}

impl Kind for Column {
    ghost value = { λ c. c.0 };

    fn of(number: u32) -> Column {
        Column(number)
    }

    fn number(self) -> u32 {
        self.0
    }
}

impl Kind for OriginalRow {
    ghost value = { λ r. r.0 };

    fn of(number: u32) -> OriginalRow {
        OriginalRow(number)
    }

    fn number(self) -> u32 {
        self.0
    }
}

impl Kind for NewRow {
    ghost value = { λ r. r.0 };

    fn of(number: u32) -> NewRow {
        NewRow(number)
    }

    fn number(self) -> u32 {
        self.0
    }
}

// A number of a kind, or none: inside a slice an unused number stands for none.
impl<K: Kind> Kind for Option<K> {
    ghost value = { λ o. option_map_or K.value o none };

    fn of(number: u32) -> Option<K> {
        if number == NONE {
            return None;
        }
        Some(K::of(number))
    }

    fn number(self) -> u32 {
        match self {
            Some(k) => k.number(),
            None => NONE,
        }
    }
}

// What a slice holds for a number of the kind that it goes by.
pub fn get<K: Kind, V: Kind>(s: &[u32], k: K) -> V
    requires { K.value k < length s.now }
    ensures { V.value result ≡ get_or s.now (K.value k) 0 }
{
    V::of(s[k.number() as usize])
}

pub fn put<K: Kind, V: Kind>(s: &mut [u32], k: K, v: V)
    requires { K.value k < length s.old }
    ensures { s.new ≡ set s.old (K.value k) (V.value v) }
{
    s[k.number() as usize] = v.number();
}

// The first k numbers become v.
pub fn fill(s: &mut [u32], k: u32, v: u32)
    requires { k ≤ length s.old }
    ensures { s.new ≡ replicate k v ++ drop k s.old }
{
    s[..k as usize].fill(v);
}

// The first k numbers become zero.
pub fn clear(s: &mut [u32], k: u32)
    requires { k ≤ length s.old }
    ensures { s.new ≡ zeroed k s.old }
{
    fill(s, k, 0);
}

// A numbering turned round: what `back` holds for each number is the number by which `forth` holds it.
pub fn invert<K: Kind, V: Kind>(size: u32, forth: &[u32], back: &mut [u32])
    requires size_in_bounds { (size ≤ length forth.now) × (size ≤ length back.old) }
    requires permutes { Permutes size forth.now }
    ensures { back.new ≡ filled (inverse size forth.now) back.old }
{
    for i in 0..size {
        let k = K::of(i);
        let v = get::<K, V>(forth, k);
        put::<V, K>(back, v, k);
    }
}
