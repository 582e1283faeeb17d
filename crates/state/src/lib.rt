// The state in arrays: an actor's record and its local steps, and what its next step is. `specs/State` says which site of the model the arrays hold.
#![tactic(auto)]

ghost use Rattle.std.specs.Prelude.{◌≡◌, cond, ◌+◌, ◌<◌, ◌≤◌, min, length, get_or, set};
ghost use Rattle.table.specs.declared.Action.TheVariants.{Add};
ghost use Rattle.model.specs.Views.{total, largest, runs_over};
ghost use Rattle.model.specs.Step.{taken, over};

pub mod arrays;

pub use arrays::{Journal, Mail, Queues, Site};

// An actor's record: its eight cells, and the number of its next action.
#[derive(Clone, Copy)]
pub struct Actor {
    pub cells: [u32; 8],
    pub position: usize,
    pub ghost eight: { length cells ≡ 8 },
}

// The local steps: each takes the record as its own, changes it and hands it back, the form that the project asks for here.
impl Actor {
    ghost use Rattle.state.specs.State.{fresh_actor, step_as};

    // At position 0, with all cells 0.
    pub fn fresh() -> Self
        ensures { result ≡ fresh_actor }
    {
        Actor {
            position: 0,
            cells: [0; 8],
        }
    }

    // Set, and the writing of a result or of a value that was picked up. Every cell is written, the others with what they hold: a store of
    // one cell, with the whole record read right after it, is slow, and an `if` in place of `then_some` is compiled to that.
    pub fn put(mut self, cell: usize, value: u32) -> Self
        requires { cell < 8 }
        ensures { (result.position ≡ self.position) × (result.cells ≡ set self.cells cell value) }
    {
        for (i, held) in self.cells.iter_mut().enumerate() {
            *held = (i == cell).then_some(value).unwrap_or(*held);
        }
        self
    }

    // What an Add is as the next step: it runs over where its sum would pass the largest number that a cell holds.
    pub fn adding(self, cell: usize, other: usize) -> Result<(), Hold>
        requires { (cell < 8) × (other < 8) }
        ensures { step_as result ≡ cond (runs_over (Add cell other) self.cells) over taken }
    {
        match self.cells[cell].checked_add(self.cells[other]) {
            Some(_) => Ok(()),
            None => Err(Hold::Over),
        }
    }

    // Add: the sum, which must not run over.
    pub fn add(mut self, cell: usize, other: usize) -> Self
        requires { (cell < 8) × (other < 8) × (total (Add cell other) self.cells ≤ largest) }
        ensures { (result.position ≡ self.position) × (result.cells ≡ set self.cells cell (total (Add cell other) self.cells)) }
    {
        self = self.put(cell, self.cells[cell] + self.cells[other]);
        self
    }

    // Lesser: the smaller of the two.
    pub fn lesser(mut self, cell: usize, other: usize) -> Self
        requires { (cell < 8) × (other < 8) }
        ensures { (result.position ≡ self.position) × (result.cells ≡ set self.cells cell (min (get_or self.cells cell 0) (get_or self.cells other 0))) }
    {
        self = self.put(cell, self.cells[cell].min(self.cells[other]));
        self
    }

    // The next action follows.
    pub fn next(mut self) -> Self
        requires { self.position < 32 }
        ensures { (result.position ≡ self.position + 1) × (result.cells ≡ self.cells) }
    {
        self.position += 1;
        self
    }
}

// Why an actor's next step is not taken: it waits for what it looks at, or it is an Add that would run over.
#[derive(Clone, Copy)]
pub enum Hold {
    Waits,
    Over,
}
