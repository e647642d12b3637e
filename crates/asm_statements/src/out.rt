ghost use Rattle.std.specs.Prelude.{◌≡◌, ◌∷◌, ◌++◌, [], Some, OnErr, OnOk};
ghost use Rattle.asm_statements.specs.Fits.{StatementFits, AllFit};
ghost use Rattle.asm_statements.specs.SourceLines.{at_line};
ghost use Rattle.asm_statements.specs.Scanning.{with_what, Puts};

use crate::scan::Bad;
use crate::statement::{Statement, What};
use st_base::Memory;
use std::alloc::Global;
use std::marker::Model;

/// Statements that fit. Contracts see their list.
#[derive(Drop)]
pub struct Statements {
    list: Vec<Statement>,
}

impl Model for Statements {
    ghost use Rattle.std.specs.Prelude.{List};
    ghost use Rattle.asm_statements.specs.declared.statement.Statement.{Statement};
    ghost use Rattle.asm_statements.specs.Fits.{AllFit};

    ghost Value = { List Statement };

    ghost view = { λ s. s.list.items };

    ghost invariant = { λ s. AllFit s.list.items };
}

impl Statements {
    /// No statements. Takes no memory.
    pub fn new(alloc: Global) -> Statements
        ensures { result ≡ [] }
    {
        Statements {
            list: Vec::new(alloc),
        }
    }

    #[tactic(auto, using(crate::proofs::FitLemmas::pushed_fit))]
    /// Appends a statement that fits. Refused only where memory runs out; the list is then as it was.
    pub fn push(&mut self, line: u64, what: What) -> Result<(), Memory>
        requires { StatementFits what }
        ensures pushed { OnOk result (self.new ≡ self.old ++ at_line line what ∷ []) }
        ensures kept { OnErr result (self.new ≡ self.old) }
    {
        self.list.push(Statement { line, what })?;
        Ok(())
    }

    /// All statements. Takes no memory.
    pub fn items(&self) -> &[Statement]
        ensures value { result.now ≡ self.now }
        ensures fits { AllFit result.now }
    {
        self.list.as_slice()
    }

    /// The statements themselves. Takes no memory.
    pub fn into_vec(self) -> Vec<Statement>
        ensures { result.items ≡ self }
    {
        self.list
    }
}

/// The statements that were read, and the number of the line that is being read.
#[derive(Drop)]
pub struct Out {
    pub number: u64,
    pub statements: Statements,
}

impl Out {
    /// Appends a statement of the line. Refused only where memory runs out.
    pub fn put(&mut self, what: What) -> Result<(), Bad>
        requires { StatementFits what }
        ensures value { OnOk result (self.new ≡ with_what self.old what) }
        ensures puts { Puts result self.old self.new (Some (what ∷ [])) }
    {
        self.statements.push(self.number, what)?;
        Ok(())
    }
}
