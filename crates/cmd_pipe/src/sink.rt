//! The sink of the answers to the lines of an input.

use crate::fault::PipeFault;
use its_lines::Response;

/// Takes answers, line by line.
pub trait ResponseSink {
    ghost use Rattle.std.specs.Prelude.{◌++◌, ◌∷◌, [], List, OnOk};
    ghost use Rattle.its_lines.specs.declared.response.Response.{Response};

    /// What holds for a sink that took these answers, in order. A sink that keeps none may say
    /// nothing.
    ghost Took: { Self → List Response → Type 0 };

    /// Takes the answer to the next line that has one.
    fn put(&mut self, response: Response) -> Result<(), PipeFault>
        ensures { (log : List Response) → Took self.old log
            → OnOk result (Took self.new (log ++ response ∷ [])) };
}
