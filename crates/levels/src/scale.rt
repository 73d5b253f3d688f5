// The scale between counts, whole numbers from -127 to 127, and levels, 32-bit floats.
ghost use Rattle.std.specs.Prelude.{◌^◌, ◌≤◌, false, pos};
ghost use Rattle.std.specs.Float.Ieee.Exact.{HasValue};
ghost use Rattle.levels.specs.Level.{Equals, largest_count, top_exponent, exponent_of, IsLevel};

mod conversion;
mod making;
pub mod rows;

// A count c stands for the level c × step. The step is 2^-k for an exponent k from 0 to 6, and the
// top level is 127 × step; both are exact. (No `impl Model`: contracts see a scale by `exponent_of` its step.)
#[derive(Clone, Copy, Drop)]
pub struct Scale {
    step: f32,
    top: f32,
    ghost small: { exponent_of step ≤ top_exponent },
    ghost step_exact: { Equals step 1 (2 ^ exponent_of step) },
    ghost top_exact: { Equals top largest_count (2 ^ exponent_of step) },
}

impl Scale {
    // The level of the count 1.
    pub fn step(&self) -> f32
        ensures { IsLevel (exponent_of self.now.step) (pos 1) result }
    {
        self.step
    }

    // The level of the largest count.
    pub fn top_level(&self) -> f32
        ensures { IsLevel (exponent_of self.now.step) (pos largest_count) result }
    {
        self.top
    }

    // 2^k, by which a level is multiplied.
    fn factor(&self) -> f32
        ensures { HasValue result false (2 ^ exponent_of self.now.step) 1 }
    {
        1.0 / self.step
    }

    // The largest count as a float.
    fn limit(&self) -> f32
        ensures { HasValue result false largest_count 1 }
    {
        self.factor() * self.top
    }
}
