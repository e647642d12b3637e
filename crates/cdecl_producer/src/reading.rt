ghost use Rattle.std.specs.Prelude.{◌≡◌, ◌++◌, [], ◌∷◌, map, IfOk, OnOk};
ghost use Rattle.cdecl_producer.specs.declared.source.Progress.TheVariants as progress;
ghost use Rattle.cdecl_producer.specs.Files.{wanted_at, left};
ghost use Rattle.cdecl_producer.specs.Outcomes.{Includes, started};

use crate::source::{Progress, Source};
use c_units::Draft;
use st_base::{C_CYCLE, C_UNKNOWN, List, Memory, Refused};
use std::alloc::Global;

/// A unit that is being read.
#[derive(Drop)]
pub struct Reading {
    /// The unit so far.
    pub draft: Draft,
    /// How far each given file has been read, by their places.
    pub progress: List<Progress>,
}

// The main source is being read, and no header was.
fn first_progress(alloc: Global, headers: &[Source]) -> Result<List<Progress>, Memory>
    ensures { IfOk result (λ p. p ≡ progress.Open ∷ map (λ f. progress.Unread) headers.now) }
{
    let mut progress = List::new(alloc);
    progress.push(Progress::Open)?;
    for _ in headers {
        progress.push(Progress::Unread)?;
    }
    Ok(progress)
}

impl Reading {
    /// Before the first token of the main source.
    pub fn new(alloc: Global, main: &Source, headers: &[Source]) -> Result<Reading, Memory>
        ensures { IfOk result (λ s. s ≡ started main.now headers.now) }
    {
        Ok(Reading {
            draft: Draft::new(alloc, main.name.bytes())?,
            progress: first_progress(alloc, headers)?,
        })
    }

    /// An include on a line, of the file of this name, which stands at a place if it is given. A header that begins is told by its place;
    /// `None`: the file was read to its end. Refused with `C_UNKNOWN` where it is not given, with `C_CYCLE` where it is being read, and
    /// with `C_LARGE` where it is one header too many.
    pub fn include(
        &mut self,
        place: Option<usize>,
        name: &[u8],
        line: u64,
    ) -> Result<Option<usize>, Refused>
        ensures { Includes (wanted_at name.now line self.old place) self.old self.new result }
    {
        let Some(at) = place else {
            return Err(Refused::At(self.draft.fault(C_UNKNOWN, line)));
        };
        match self.progress.get(at) {
            None => Err(Refused::At(self.draft.fault(C_UNKNOWN, line))),
            Some(Progress::Open) => Err(Refused::At(self.draft.fault(C_CYCLE, line))),
            Some(Progress::Done) => Ok(None),
            Some(Progress::Unread) => {
                self.draft.enter(at as u64, name, line)?;
                self.progress.replace(at, Progress::Open);
                Ok(Some(at))
            }
        }
    }

    /// The header at a place ends, and the file around it goes on.
    #[tactic(auto, unfolding(crate::specs::Files::left))]
    pub fn leave(&mut self, header: usize) -> Result<(), Memory>
        ensures { OnOk result (self.new ≡ left header self.old) }
    {
        self.draft.leave()?;
        if header < self.progress.len() {
            self.progress.replace(header, Progress::Done);
        }
        Ok(())
    }
}
