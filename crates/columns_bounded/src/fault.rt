//! Why there is no table.
use crate::request::RequestFault;
use columns_run::RunFault;

/// Why there is no table: the request, the colours, the text, or the size.
#[derive(Clone, Copy)]
pub enum AnswerFault {
    /// A number of the request has no meaning.
    Request(RequestFault),
    /// The list of colours is no text, or does not have the form.
    Colors,
    /// The text has no table.
    Text(RunFault),
    /// The table has more bytes than it may have.
    OverMaxSize,
}

impl From<RequestFault> for AnswerFault {
    ghost use Rattle.std.specs.Prelude.{◌≡◌};
    ghost use Rattle.columns_bounded.specs.declared.fault.AnswerFault.TheVariants.{Request};

    ghost from_gives = { λ given fault. fault ≡ Request given };

    fn from(fault: RequestFault) -> AnswerFault {
        AnswerFault::Request(fault)
    }
}

impl From<RunFault> for AnswerFault {
    ghost use Rattle.std.specs.Prelude.{◌≡◌};
    ghost use Rattle.columns_bounded.specs.declared.fault.AnswerFault.TheVariants.{Text};

    ghost from_gives = { λ given fault. fault ≡ Text given };

    fn from(fault: RunFault) -> AnswerFault {
        AnswerFault::Text(fault)
    }
}
