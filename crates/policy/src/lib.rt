// Whose turn it is: the ways in which a maker of schedules chooses the actor that is stepped next. `specs/Parts` says which rule each is.
#![tactic(auto)]

ghost use Rattle.std.specs.Prelude.{◌≡◌, ℕ, ◌*◌, ◌%◌, ◌^◌, ◌<◌, Bool, count_ones};
ghost use Rattle.model.specs.Ready.{mask_of};
ghost use Rattle.model.specs.Draw.{draw as model_draw, ranked as model_ranked, drawing};
ghost use Rattle.policy.specs.Parts.{rule_of, kept_of, TurnRight};

// A way to choose, with what it keeps from turn to turn: the draw keeps its x.
#[derive(Clone, Copy)]
pub struct Policy {
    x: u32,
}

impl Policy {
    // The drawn schedule of a seed.
    pub fn drawn(seed: u32) -> Self
        ensures { (rule_of result ≡ drawing) × (kept_of result ≡ seed) }
    {
        Policy { x: seed }
    }

    // The actor whose turn it is where those of a mask are ready, one at least.
    pub fn turn(&mut self, mask: u32) -> usize
        requires { 0 < count_ones mask }
        ensures { TurnRight self.old mask result self.new }
    {
        let old = self.x;
        let x = draw(old);
        self.x = x;
        let rank = x / 65536 % mask.count_ones();
        ranked(mask, rank)
    }
}

// What a draw makes of x.
fn draw(x: u32) -> u32
    ensures { result ≡ model_draw x }
{
    product(1664525, x).wrapping_add(1013904223)
}

// The product modulo 2^32. No `wrapping_mul` and its one cast stay: the product as a helper with a modular proof is a rule of the project.
fn product(x: u32, y: u32) -> u32
    ensures { result ≡ x * y % 2 ^ 32 }
{
    (u64::from(x) * u64::from(y) % 4294967296) as u32
}

// The place of the one of a rank among the ones of a mask, both counted from 0, from the lowest up.
fn ranked(mask: u32, rank: u32) -> usize
    requires { rank < count_ones mask }
    ensures { (f : ℕ → Bool) (n : ℕ) → mask ≡ mask_of f n 0 → result ≡ model_ranked f n 0 rank }
{
    let mut m = mask;
    let mut r = rank;
    for a in 0..32 {
        let b = m % 2;
        if r < b {
            return a;
        }
        r -= b;
        m /= 2;
    }
    // no turn of the loop comes so far
    32
}
