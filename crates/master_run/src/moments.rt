ghost use Rattle.std.specs.Prelude.{◌≡◌, IfOk, map, replicate};
ghost use Rattle.plain_data.specs.Cells.{IsInside, with_cell};
ghost use Rattle.master_run.specs.Courses.{moment_at};

use plain_data::{Items, OutOfMemory};
use std::alloc::Global;
use std::marker::Model;

/// When each task was submitted, by client and step, in milliseconds; 0 where it wasn't.
#[derive(Drop)]
pub(crate) struct Moments {
    rows: Vec<Items<u64>>,
}

impl Model for Moments {
    ghost use Rattle.std.specs.Prelude.{List, ℕ};

    ghost Value = { List (List ℕ) };

    ghost view = { λ m. m.rows.items };
}

impl Moments {
    /// For lanes of these lengths, with nothing submitted.
    pub(crate) fn create(alloc: Global, lanes: &[u32]) -> Result<Moments, OutOfMemory>
        ensures { IfOk result (λ made. made ≡ map (λ steps. replicate steps 0) lanes.now) }
    {
        let mut rows = Vec::new(alloc);
        for steps in lanes {
            rows.push(zeros(alloc, *steps)?)?;
        }
        Ok(Moments { rows })
    }

    /// When the task of a step was submitted.
    pub(crate) fn at(&self, client: u32, step: u32) -> u64
        requires { IsInside self.now client step }
        ensures { result ≡ moment_at self.now client step }
    {
        match self.rows[client as usize].get(step as usize) {
            Some(at) => *at,
            None => 0,
        }
    }

    /// The task of a step is submitted.
    pub(crate) fn set(&mut self, client: u32, step: u32, at: u64)
        requires { IsInside self.old client step }
        ensures { self.new ≡ with_cell client step at self.old }
    {
        self.rows[client as usize].set(step as usize, at);
    }
}

/// So many zeros.
fn zeros(alloc: Global, count: u32) -> Result<Items<u64>, OutOfMemory>
    ensures { IfOk result (λ made. made ≡ replicate count 0) }
{
    Ok(Items::from_vec(vec![in alloc; 0; count as usize]?))
}
