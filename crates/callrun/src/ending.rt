//! How a call ends.

ghost use Rattle.std.specs.Prelude.{◌≡◌, ◌++◌, [], IfOk};
ghost use Rattle.callhead.specs.StatusFields.{response_fields};
ghost use Rattle.grpc_status.specs.StatusCode.{status_number};
ghost use Rattle.callrun.specs.Responses.{trailing_fields};
ghost use Rattle.callrun.specs.Endings.{ends_with};

use crate::cause::Cause;
use callhead::{CallHead, Texts, response_fields, status_fields};
use handlers::Status;
use lists::Field;
use std::alloc::{AllocError, Global};

/// How a call ends.
#[derive(Debug, Drop)]
pub(crate) enum Ending {
    /// By the status that its method gave.
    Method(Status),
    /// By a status of the server's own.
    Cause(Cause),
}

impl Ending {
    /// The number of the status.
    pub(crate) fn code(&self) -> u32
        ensures { result ≡ status_number (ends_with self.now).code }
    {
        match self {
            Ending::Method(status) => status.code.number(),
            Ending::Cause(cause) => cause.code().number(),
        }
    }

    fn text(&self) -> &str
        ensures { result.now ≡ (ends_with self.now).text }
    {
        match self {
            Ending::Method(status) => status.text.as_str(),
            Ending::Cause(cause) => cause.text(),
        }
    }

    /// The fields of the trailers.
    pub(crate) fn trailers(&self, alloc: Global, head: &CallHead) -> Result<Vec<Field>, AllocError>
        ensures { IfOk result (λ fields. fields.items
            ≡ trailing_fields head.now (ends_with self.now)) }
    {
        status_fields(alloc, self.code(), self.text(), &head.echo_trailing)
    }

    /// The fields of a response that is one block ("Trailers-Only").
    pub(crate) fn only_trailers(
        &self,
        alloc: Global,
        head: &CallHead,
    ) -> Result<Vec<Field>, AllocError>
        ensures { IfOk result (λ fields. fields.items
            ≡ response_fields [] ++ trailing_fields head.now (ends_with self.now)) }
    {
        let mut fields = response_fields(alloc, &Texts::from(Vec::new(alloc)))?;
        let mut trailers = self.trailers(alloc, head)?;
        fields.append(&mut trailers)?;
        Ok(fields)
    }
}
