// A capture's counts as soft values.
ghost use Rattle.std.specs.Prelude.{◌≡◌, map, length, ℤ};
ghost use Rattle.soft.specs.Counts.{counted, top_count};
ghost use Rattle.analyser.specs.Reading.{erasure_of, AllSpeak};
ghost use Rattle.std.proofs.Common.{rules};

use crate::writing::write_front;
use soft::count::Count;
use soft::erasure::Erasure;
use soft::kind::{Listed, Soft};

// A kind that counts can be read as.
pub trait Spoken: Listed {
    ghost spoken: { ℤ → Self };

    // The value that a count stands for.
    fn of_count(count: i16) -> Self
        ensures { result ≡ spoken count };

    // Each count from -127 to 127 gives a value that fits.
    ghost fitting: { AllSpeak top_count Self.Soft.kind spoken };
}

impl Spoken for Count {
    ghost spoken = { counted };

    ghost fitting = { Prim.search rules };

    fn of_count(count: i16) -> Count {
        Count::from(count)
    }
}

// Above zero bit 0, below it bit 1, and a zero is unknown.
impl Spoken for Erasure {
    ghost spoken = { erasure_of };

    ghost fitting = { Prim.search rules };

    fn of_count(count: i16) -> Erasure {
        if count > 0 {
            Erasure::Zero
        } else if count < 0 {
            Erasure::One
        } else {
            Erasure::Unknown
        }
    }
}

// Writes the values of the counts.
pub(crate) fn put_values<K: Spoken>(counts: &[i16], values: &mut [K])
    requires { length values.old ≡ length counts.now }
    ensures { values.new ≡ map K.Spoken.spoken counts.now }
{
    write_front(
        values,
        counts.iter().copied().map(|count| K::of_count(count)),
    );
}
