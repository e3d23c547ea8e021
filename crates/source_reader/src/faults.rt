//! Faults of operations at their places.

ghost use Rattle.std.specs.Prelude.{◌≡◌};
ghost use Rattle.source_reader.specs.Placed.{placed};

use crate::Stop;
use source_meaning::FunctionFault;
use source_value::OperationFault;

/// The result of an operation whose sign, or first token, stands at `at`.
pub fn placed<T>(answer: Result<T, OperationFault>, at: u32) -> Result<T, Stop>
    ensures { result ≡ placed at answer }
{
    match answer {
        Ok(value) => Ok(value),
        Err(OperationFault::Big) => Err(Stop::Fault(FunctionFault::BigNumber { at })),
        Err(OperationFault::NoMemory) => Err(Stop::Fault(FunctionFault::NoMemory)),
    }
}
