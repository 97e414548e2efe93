//! For each commodity the intercommodity spreads that name it, as the bits of a number: bit `i` stands for the spread at
//! place `i`.

ghost use Rattle.std.specs.Prelude.{◌≡◌, ◌≢◌, ℕ, ◌<◌, false, true, length, All, slice_index};
ghost use Rattle.std.specs.Int.{bit_at};
ghost use Rattle.mgn_params.specs.Naming.{names};

use crate::tables::Leg;

// Some places with one more.
fn with_place(places: u64, place: usize) -> u64
    requires { place < 64 }
    ensures own { bit_at result place ≡ 1 }
    ensures others { (i : ℕ) → i ≢ place → bit_at result i ≡ bit_at places i }
{
    places | (1 << place)
}

/// Puts a spread among those of each commodity that a leg names.
pub(crate) fn name_legs(naming: &mut [u64], legs: &[Leg], place: usize)
    requires legs { All (λ leg. leg.commodity < length naming.old) legs.now }
    requires place { place < 64 }
    ensures others { (g i : ℕ) → i ≢ place → bit_at (slice_index naming.new g) i ≡ bit_at (slice_index naming.old g) i }
    ensures named { (g : ℕ) → names g legs.now ≡ true → bit_at (slice_index naming.new g) place ≡ 1 }
    ensures unnamed { (g : ℕ) → names g legs.now ≡ false → slice_index naming.new g ≡ slice_index naming.old g }
{
    for leg in legs {
        naming[leg.commodity] = with_place(naming[leg.commodity], place);
    }
}
