//! The code of each cause.

ghost use Rattle.std.specs.Prelude.{◌≡◌};
ghost use Rattle.source_run.specs.Causes as causes;

use crate::code::Code;
use crate::fault::Fault;
use config::{BuildError, ConfigurationError};
use durable_core::{Refusal, StartFault};
use image::PlantError;
use layout::LayoutError;
use retain_store::StoreFault;
use run_lock::RunFault;
use serial_core::Refusal as SerialRefusal;
use st_compile::CompileError;
use st_decl::CheckError;
use st_lex::{LexError, LexFault};
use st_parse::ParseError;
use st_rules::Rule;
use trace::ReplayError;

fn code_of_word(fault: LexFault) -> Code
    ensures { result ≡ causes.code_of_word fault }
{
    match fault {
        LexFault::Byte => Code::L1,
        LexFault::Literal => Code::L2,
        LexFault::Identifier => Code::L3,
        LexFault::Comment => Code::L4,
    }
}

fn code_of_words(error: LexError) -> Code
    ensures { result ≡ causes.code_of_words error }
{
    match error {
        LexError::Fault(fault, _) => code_of_word(fault),
        LexError::TooLong => Code::L5,
        LexError::Memory => Code::L6,
    }
}

fn code_of_grammar(error: ParseError) -> Code
    ensures { result ≡ causes.code_of_grammar error }
{
    match error {
        ParseError::Unexpected(_) => Code::P1,
        ParseError::Deep => Code::P2,
        ParseError::Memory => Code::P3,
    }
}

fn code_of_rule(rule: Rule) -> Code
    ensures { result ≡ causes.code_of_rule rule }
{
    match rule {
        Rule::UnknownName => Code::C1,
        Rule::DeclaredTwice => Code::C2,
        Rule::WrongType => Code::C3,
        Rule::OutOfRange => Code::C4,
        Rule::NotAssignable => Code::C5,
        Rule::TooDeep => Code::C6,
        Rule::WrongLabel => Code::C7,
        Rule::WrongBounds => Code::C8,
        Rule::ExitOutsideLoop => Code::C9,
        Rule::WrongArguments => Code::C10,
        Rule::RetainedAddress => Code::C11,
        Rule::TooManyNames => Code::C13,
    }
}

fn code_of_check(error: CheckError) -> Code
    ensures { result ≡ causes.code_of_check error }
{
    match error {
        CheckError::Broken(broken) => code_of_rule(broken.reason.rule()),
        CheckError::OutOfMemory => Code::C12,
    }
}

fn code_of_configuration(error: ConfigurationError) -> Code
    ensures { result ≡ causes.code_of_configuration error }
{
    match error {
        ConfigurationError::NotOne => Code::G2,
        ConfigurationError::Unknown => Code::G3,
        ConfigurationError::WrongAddress => Code::G4,
        ConfigurationError::TooMany => Code::G5,
        ConfigurationError::WithoutTask => Code::G8,
        ConfigurationError::OutOfMemory => Code::G9,
    }
}

fn code_of_layout(error: LayoutError) -> Code
    ensures { result ≡ causes.code_of_layout error }
{
    match error {
        LayoutError::TooLarge => Code::M1,
        LayoutError::OutOfMemory => Code::M3,
    }
}

fn code_of_code(error: CompileError) -> Code
    ensures { result ≡ causes.code_of_code error }
{
    match error {
        CompileError::TooManyPlaces => Code::M1,
        CompileError::TooManyInstructions => Code::M2,
        CompileError::OutOfMemory | CompileError::NotLinked => Code::M3,
    }
}

fn code_of_build(error: BuildError) -> Code
    ensures { result ≡ causes.code_of_build error }
{
    match error {
        BuildError::Budget => Code::G7,
        BuildError::Words(error) => code_of_words(error),
        BuildError::Grammar(error) => code_of_grammar(error),
        BuildError::Rule(error) => code_of_check(error),
        BuildError::Configuration(error) => code_of_configuration(error),
        BuildError::Layout(error) => code_of_layout(error),
        BuildError::Code(error) => code_of_code(error),
        BuildError::RecordTooLong => Code::G6,
        BuildError::Memory => Code::G9,
    }
}

fn code_of_plant(error: PlantError) -> Code
    ensures { result ≡ causes.code_of_plant error }
{
    match error {
        PlantError::Header => Code::I1,
        PlantError::Field => Code::I2,
        PlantError::NotLater => Code::I3,
        PlantError::TooManyRows => Code::I4,
        PlantError::Reading => Code::I5,
        PlantError::NoMemory => Code::I6,
    }
}

fn code_of_trace(error: ReplayError) -> Code
    ensures { result ≡ causes.code_of_trace error }
{
    match error {
        ReplayError::Form => Code::V1,
        ReplayError::Row => Code::V2,
        ReplayError::NotWaiting => Code::V3,
        ReplayError::Outcome => Code::V4,
        ReplayError::NoMemory => Code::V5,
        ReplayError::Device => Code::V6,
        ReplayError::Order => Code::V7,
    }
}

fn code_of_store(fault: StoreFault) -> Code
    ensures { result ≡ causes.code_of_store fault }
{
    match fault {
        StoreFault::TooLong => Code::S1,
        StoreFault::Damaged => Code::S2,
        StoreFault::Device => Code::S3,
        StoreFault::Generations => Code::S4,
        StoreFault::NoMemory => Code::S5,
        StoreFault::Failed => Code::S6,
    }
}

fn code_of_start(fault: StartFault) -> Code
    ensures { result ≡ causes.code_of_start fault }
{
    match fault {
        StartFault::Store(fault) => code_of_store(fault),
        StartFault::NoMemory => Code::N2,
    }
}

fn code_of_step(refusal: SerialRefusal) -> Code
    ensures { result ≡ causes.code_of_step refusal }
{
    match refusal {
        SerialRefusal::Full => Code::K1,
        SerialRefusal::NotWaiting => Code::K2,
        SerialRefusal::Foreign => Code::K3,
        SerialRefusal::NotLater => Code::K4,
        SerialRefusal::NoMemory => Code::K6,
    }
}

fn code_of_call(refusal: Refusal) -> Code
    ensures { result ≡ causes.code_of_call refusal }
{
    match refusal {
        Refusal::StoreFailed(_) => Code::K5,
        Refusal::Serial(refusal) => code_of_step(refusal),
    }
}

fn code_of_run(fault: RunFault) -> Code
    ensures { result ≡ causes.code_of_run fault }
{
    match fault {
        RunFault::Refused(refusal) => code_of_call(refusal),
        RunFault::NotStarted => Code::H1,
        RunFault::NotSettled => Code::H2,
    }
}

/// The code of a fault.
pub fn code_of(fault: Fault) -> Code
    ensures { result ≡ causes.code_of fault }
{
    match fault {
        Fault::Source => Code::X1,
        Fault::Build(error) => code_of_build(error),
        Fault::Plant(error) => code_of_plant(error),
        Fault::Trace(error) => code_of_trace(error),
        Fault::Start(fault) => code_of_start(fault),
        Fault::Run(fault) => code_of_run(fault),
    }
}

fn place_of_build(error: BuildError) -> Option<usize>
    ensures { result ≡ causes.place_of_build error }
{
    match error {
        BuildError::Words(LexError::Fault(_, place)) => Some(place),
        BuildError::Words(LexError::TooLong) => Some(0),
        BuildError::Grammar(ParseError::Unexpected(place)) => Some(place),
        BuildError::Rule(CheckError::Broken(broken)) => Some(broken.place),
        _ => None,
    }
}

/// The place in the source that is reported with a fault, if there is one, counted in bytes from 0.
pub fn place_of(fault: Fault) -> Option<usize>
    ensures { result ≡ causes.place_of fault }
{
    match fault {
        Fault::Build(error) => place_of_build(error),
        _ => None,
    }
}
