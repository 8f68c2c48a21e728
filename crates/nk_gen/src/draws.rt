// The numbers that a script is made of.

ghost use Rattle.std.specs.Prelude.{◌≡◌, ◌<◌};
ghost use Rattle.nk_gen.specs.Draws.{next, first_draw};

/// A linear congruential sequence of numbers below 2^32. This project's own.
#[derive(Clone, Copy, Debug, Drop, PartialEq, Eq)]
pub(crate) struct Draws(pub(crate) u32);

impl Draws {
    /// The next number, drawn below m.
    #[tactic(auto, unfolding(crate::specs::Draws::next, crate::specs::Draws::drawn))]
    pub(crate) fn draw(&mut self, m: u32) -> u32
        requires { 0 < m }
        ensures draw { result ≡ first_draw m self.old.0 }
        ensures below { result < m }
        ensures next { self.new.0 ≡ next self.old.0 }
    {
        let wide = u64::from(self.0) * 1_664_525 + 1_013_904_223;
        self.0 = (wide % 4_294_967_296) as u32;
        (self.0 / 65_536) % m
    }
}
