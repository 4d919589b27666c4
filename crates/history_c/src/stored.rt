ghost use Rattle.std.specs.Prelude.{◌≡◌};
ghost use Rattle.history_c.specs.Events.{stored_of, fragment_in_c};

use shade::{Sample, Shaded};

/// What a sample stores, laid out as in C.
#[repr(C)]
#[derive(Clone, Copy, Debug, PartialEq, Eq)]
pub struct StoredSample {
    pub red: u32,
    pub green: u32,
    pub blue: u32,
    pub depth: u32,
}

impl StoredSample {
    /// What this sample stores.
    pub(crate) fn of(sample: Sample) -> StoredSample
        ensures { result ≡ stored_of sample }
    {
        StoredSample {
            red: u32::from(sample.r),
            green: u32::from(sample.g),
            blue: u32::from(sample.b),
            depth: u32::from(sample.z),
        }
    }
}

/// What a triangle has at a sample, laid out as in C. All zeros if the triangle does not cover the sample.
#[repr(C)]
#[derive(Clone, Copy, Debug, PartialEq, Eq)]
pub struct Fragment {
    pub red: u32,
    pub green: u32,
    pub blue: u32,
    pub alpha: u32,
    pub depth: u32,
}

impl Fragment {
    /// The fragment of an event.
    pub(crate) fn of(fragment: Option<Shaded>) -> Fragment
        ensures { result ≡ fragment_in_c fragment }
    {
        match fragment {
            None => Fragment {
                red: 0,
                green: 0,
                blue: 0,
                alpha: 0,
                depth: 0,
            },
            Some(shaded) => Fragment {
                red: u32::from(shaded.r),
                green: u32::from(shaded.g),
                blue: u32::from(shaded.b),
                alpha: u32::from(shaded.a),
                depth: u32::from(shaded.z),
            },
        }
    }
}
