//! Why a text without a plan is refused.

use config::{BuildError, ConfigurationError};
use diagnostics::{SourceFault, WholeFault};
use layout::LayoutError;
use st_compile::CompileError;
use st_decl::CheckError;

fn of_rule(error: CheckError) -> SourceFault {
    match error {
        CheckError::Broken(broken) => SourceFault::Rule(broken),
        CheckError::OutOfMemory => SourceFault::Whole(WholeFault::JudgingMemory),
    }
}

fn of_configuration(error: ConfigurationError) -> WholeFault {
    match error {
        ConfigurationError::NotOne => WholeFault::NotOne,
        ConfigurationError::Unknown => WholeFault::Unknown,
        ConfigurationError::WrongAddress => WholeFault::WrongAddress,
        ConfigurationError::TooMany => WholeFault::TooMany,
        ConfigurationError::WithoutTask => WholeFault::WithoutTask,
        ConfigurationError::OutOfMemory => WholeFault::PlanMemory,
    }
}

fn of_layout(error: LayoutError) -> WholeFault {
    match error {
        LayoutError::TooLarge => WholeFault::TooManyPaths,
        LayoutError::OutOfMemory => WholeFault::LayoutMemory,
    }
}

/// `build` never reports that a text is not linked.
fn of_code(error: CompileError) -> WholeFault {
    match error {
        CompileError::TooManyPlaces => WholeFault::TooManyPaths,
        CompileError::TooManyInstructions => WholeFault::TooManyInstructions,
        CompileError::OutOfMemory | CompileError::NotLinked => WholeFault::LayoutMemory,
    }
}

/// The fault for which a text without a plan is refused.
pub fn source_fault(error: BuildError) -> SourceFault {
    match error {
        BuildError::Budget => SourceFault::Whole(WholeFault::Budget),
        BuildError::Words(error) => SourceFault::Words(error),
        BuildError::Grammar(error) => SourceFault::Grammar(error),
        BuildError::Rule(error) => of_rule(error),
        BuildError::Configuration(error) => SourceFault::Whole(of_configuration(error)),
        BuildError::Layout(error) => SourceFault::Whole(of_layout(error)),
        BuildError::Code(error) => SourceFault::Whole(of_code(error)),
        BuildError::RecordTooLong => SourceFault::Whole(WholeFault::RecordTooLong),
        BuildError::Memory => SourceFault::Whole(WholeFault::PlanMemory),
    }
}
