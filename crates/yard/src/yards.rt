ghost use Rattle.yard_steps.specs.Whole.{Whole};
ghost use Rattle.yard.specs.Views.{view};

use crate::inners::Inner;

mod calls;
mod runs;

// Up to eight domains over one code store and one memory. What holds between two words holds of every yard.
#[derive(Drop)]
pub struct Yard<'a> {
    inner: Inner<'a>,
    ghost whole: { ∥ Whole (view inner) ∥₁ },
}
