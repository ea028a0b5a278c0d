//! Resources, with their tasks and their instances of programs.

ghost use Rattle.std.specs.Prelude.{◌≡◌, ◌∷◌, []};
ghost use Rattle.std.specs.Vec.{vec_items};
ghost use Rattle.st_lex.specs.declared.keyword.Keyword.TheVariants as keywords;
ghost use Rattle.st_types.specs.ConfigurationViews.{resource_view};
ghost use Rattle.st_parse.specs.Tokens.{is_keyword};
ghost use Rattle.st_parse.specs.Parsers.{Reads, as_is, one};
ghost use Rattle.st_parse.specs.Reading.{many, at_least_one, optional};
ghost use Rattle.st_parse.specs.Configurations as specs;
ghost use Rattle.st_parse.specs.ConfigurationReading as reading;

use crate::fault::ReadError;
use crate::list::several;
use crate::tokens::{keyword, leads, mark, name, refused};
use st_lex::{Keyword, Mark, Token, TokenKind};
use st_types::{Identifier, Instance, Priority, Resource, Task};
use std::alloc::Global;

/// SINGLE, INTERVAL and PRIORITY of a task, and the tokens after them.
type FoundTerms<'a> = Result<((Option<Identifier>, Option<u64>, Priority), &'a [Token]), ReadError>;

/// The tasks and instances of a resource, and the tokens after them.
type FoundWork<'a> = Result<((Vec<Task>, Vec<Instance>), &'a [Token]), ReadError>;

/// `duration = Duration .`
/// A duration in milliseconds.
fn duration(tokens: &[Token]) -> Result<(u64, &[Token]), ReadError>
    ensures { Reads as_is result (one specs.duration tokens.now) }
{
    let [t, rest @ ..] = tokens else {
        return Err(refused(tokens));
    };
    match &t.kind {
        TokenKind::Duration(found) => Ok((*found, rest)),
        _ => Err(refused(tokens)),
    }
}

/// `decimal = Number .`
/// A number that is written as decimal digits alone.
fn decimal(tokens: &[Token]) -> Result<(Priority, &[Token]), ReadError>
    ensures { Reads as_is result (one specs.decimal tokens.now) }
{
    let [t, rest @ ..] = tokens else {
        return Err(refused(tokens));
    };
    match &t.kind {
        TokenKind::Number(found) if found.is_decimal => Ok((
            Priority {
                place: t.start,
                number: found.magnitude,
            },
            rest,
        )),
        _ => Err(refused(tokens)),
    }
}

/// `single = "SINGLE", ":=", name, "," .`
#[tactic(auto, unfolding(crate::specs::ConfigurationReading::single_at))]
fn single(alloc: Global, tokens: &[Token]) -> Result<(Identifier, &[Token]), ReadError>
    ensures { Reads as_is result (reading.single_at tokens.now) }
{
    let (_, rest) = keyword(Keyword::Single, tokens)?;
    let (_, rest) = mark(Mark::Assign, rest)?;
    let (found, rest) = name(alloc, rest)?;
    let (_, rest) = mark(Mark::Comma, rest)?;
    Ok((found, rest))
}

/// `single_or_not = [ single ] .`
#[tactic(auto, unfolding(crate::specs::Reading::optional))]
fn single_or_not(
    alloc: Global,
    tokens: &[Token],
) -> Result<(Option<Identifier>, &[Token]), ReadError>
    ensures { Reads as_is result (optional (is_keyword keywords.Single) reading.single_at tokens.now) }
{
    if !leads(Keyword::Single, tokens) {
        return Ok((None, tokens));
    }
    let (found, rest) = single(alloc, tokens)?;
    Ok((Some(found), rest))
}

/// `interval = "INTERVAL", ":=", duration, "," .`
#[tactic(auto, unfolding(crate::specs::ConfigurationReading::interval_at))]
fn interval(tokens: &[Token]) -> Result<(u64, &[Token]), ReadError>
    ensures { Reads as_is result (reading.interval_at tokens.now) }
{
    let (_, rest) = keyword(Keyword::Interval, tokens)?;
    let (_, rest) = mark(Mark::Assign, rest)?;
    let (found, rest) = duration(rest)?;
    let (_, rest) = mark(Mark::Comma, rest)?;
    Ok((found, rest))
}

/// `interval_or_not = [ interval ] .`
#[tactic(auto, unfolding(crate::specs::Reading::optional))]
fn interval_or_not(tokens: &[Token]) -> Result<(Option<u64>, &[Token]), ReadError>
    ensures { Reads as_is result (optional (is_keyword keywords.Interval) reading.interval_at tokens.now) }
{
    if !leads(Keyword::Interval, tokens) {
        return Ok((None, tokens));
    }
    let (found, rest) = interval(tokens)?;
    Ok((Some(found), rest))
}

/// `priority = "PRIORITY", ":=", decimal, ")", ";" .`
/// A priority, to the end of its task.
#[tactic(auto, unfolding(crate::specs::ConfigurationReading::priority_at))]
fn priority(tokens: &[Token]) -> Result<(Priority, &[Token]), ReadError>
    ensures { Reads as_is result (reading.priority_at tokens.now) }
{
    let (_, rest) = keyword(Keyword::Priority, tokens)?;
    let (_, rest) = mark(Mark::Assign, rest)?;
    let (found, rest) = decimal(rest)?;
    let (_, rest) = mark(Mark::Close, rest)?;
    let (_, rest) = mark(Mark::Semicolon, rest)?;
    Ok((found, rest))
}

/// `terms = single_or_not, interval_or_not, priority .`
/// When a task is due, and its priority.
#[tactic(auto, unfolding(crate::specs::ConfigurationReading::terms_at))]
fn terms(alloc: Global, tokens: &[Token]) -> FoundTerms<'_>
    ensures { Reads as_is result (reading.terms_at tokens.now) }
{
    let (single, rest) = single_or_not(alloc, tokens)?;
    let (interval, rest) = interval_or_not(rest)?;
    let (priority, rest) = priority(rest)?;
    Ok(((single, interval, priority), rest))
}

/// `task = "TASK", name, "(", terms .`
/// A task, with its semicolon.
#[tactic(auto, unfolding(crate::specs::ConfigurationReading::task_at))]
fn task(alloc: Global, tokens: &[Token]) -> Result<(Task, &[Token]), ReadError>
    ensures { Reads as_is result (reading.task_at tokens.now) }
{
    let (_, rest) = keyword(Keyword::Task, tokens)?;
    let (name, rest) = name(alloc, rest)?;
    let (_, rest) = mark(Mark::Open, rest)?;
    let ((single, interval, priority), rest) = terms(alloc, rest)?;
    let task = Task {
        name,
        single,
        interval,
        priority,
    };
    Ok((task, rest))
}

/// `tasks = { task } .`
#[tactic(auto, unfolding(crate::specs::Reading::many))]
fn tasks(alloc: Global, tokens: &[Token]) -> Result<(Vec<Task>, &[Token]), ReadError>
    ensures { Reads vec_items result (many (is_keyword keywords.Task) reading.task_at tokens.now) }
{
    several(
        Vec::new(alloc),
        tokens,
        |tokens| leads(Keyword::Task, tokens),
        |tokens| task(alloc, tokens),
    )
}

/// `with = "WITH", name .`
#[tactic(auto, unfolding(crate::specs::ConfigurationReading::with_at))]
fn with(alloc: Global, tokens: &[Token]) -> Result<(Identifier, &[Token]), ReadError>
    ensures { Reads as_is result (reading.with_at tokens.now) }
{
    let (_, rest) = keyword(Keyword::With, tokens)?;
    let (found, rest) = name(alloc, rest)?;
    Ok((found, rest))
}

/// `with_or_not = [ with ] .`
#[tactic(auto, unfolding(crate::specs::Reading::optional))]
fn with_or_not(alloc: Global, tokens: &[Token]) -> Result<(Option<Identifier>, &[Token]), ReadError>
    ensures { Reads as_is result (optional (is_keyword keywords.With) reading.with_at tokens.now) }
{
    if !leads(Keyword::With, tokens) {
        return Ok((None, tokens));
    }
    let (found, rest) = with(alloc, tokens)?;
    Ok((Some(found), rest))
}

/// `program = ":", name, ";" .`
/// The name of an instance's program, to its semicolon.
#[tactic(auto, unfolding(crate::specs::ConfigurationReading::program_at))]
fn program(alloc: Global, tokens: &[Token]) -> Result<(Identifier, &[Token]), ReadError>
    ensures { Reads as_is result (reading.program_at tokens.now) }
{
    let (_, rest) = mark(Mark::Colon, tokens)?;
    let (found, rest) = name(alloc, rest)?;
    let (_, rest) = mark(Mark::Semicolon, rest)?;
    Ok((found, rest))
}

/// `instance = "PROGRAM", name, with_or_not, program .`
/// An instance of a program, with its semicolon.
#[tactic(auto, unfolding(crate::specs::ConfigurationReading::instance_at))]
fn instance(alloc: Global, tokens: &[Token]) -> Result<(Instance, &[Token]), ReadError>
    ensures { Reads as_is result (reading.instance_at tokens.now) }
{
    let (_, rest) = keyword(Keyword::Program, tokens)?;
    let (instance, rest) = name(alloc, rest)?;
    let (task, rest) = with_or_not(alloc, rest)?;
    let (program, rest) = program(alloc, rest)?;
    let instance = Instance {
        name: instance,
        task,
        program,
    };
    Ok((instance, rest))
}

/// `instances = instance, { instance } .`
#[tactic(auto, unfolding(crate::specs::Reading::at_least_one))]
fn instances(alloc: Global, tokens: &[Token]) -> Result<(Vec<Instance>, &[Token]), ReadError>
    ensures { Reads vec_items result (at_least_one (is_keyword keywords.Program) reading.instance_at tokens.now) }
{
    let (first, rest) = instance(alloc, tokens)?;
    let mut found = Vec::new(alloc);
    found.push(first)?;
    several(
        found,
        rest,
        |tokens| leads(Keyword::Program, tokens),
        |tokens| instance(alloc, tokens),
    )
}

/// `work = tasks, instances, "END_RESOURCE" .`
/// The tasks and instances of a resource, to its end.
#[tactic(auto, unfolding(crate::specs::ConfigurationReading::work_at))]
fn work(alloc: Global, tokens: &[Token]) -> FoundWork<'_>
    ensures { Reads (λ w. (vec_items w.0, vec_items w.1)) result (reading.work_at tokens.now) }
{
    let (tasks, rest) = tasks(alloc, tokens)?;
    let (instances, rest) = instances(alloc, rest)?;
    let (_, rest) = keyword(Keyword::EndResource, rest)?;
    Ok(((tasks, instances), rest))
}

/// `resource = "RESOURCE", name, "ON", name, work .`
/// A resource, from RESOURCE to END_RESOURCE.
#[tactic(auto, unfolding(crate::specs::ConfigurationReading::resource_at))]
pub fn resource(alloc: Global, tokens: &[Token]) -> Result<(Resource, &[Token]), ReadError>
    ensures { Reads resource_view result (reading.resource_at tokens.now) }
{
    let (_, rest) = keyword(Keyword::Resource, tokens)?;
    let (resource, rest) = name(alloc, rest)?;
    let (_, rest) = keyword(Keyword::On, rest)?;
    let (processor, rest) = name(alloc, rest)?;
    let ((tasks, instances), rest) = work(alloc, rest)?;
    let resource = Resource {
        name: resource,
        processor,
        tasks,
        instances,
    };
    Ok((resource, rest))
}
