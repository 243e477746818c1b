//! This module has the printed names of the causes, with what they carry.

ghost use Rattle.std.specs.Prelude.{◌≡◌, IfOk};
ghost use Rattle.std.specs.String.{string_bytes};
ghost use Rattle.output.specs.Refusals.{number_text, choice_text, choice_place as choice_place_text, tra_text, lab_text, formula_text, plan_cause_text, upper_text, ranks_text, values_text};

use distributions::ChoiceFault;
use formula_tokens::FormulaCause;
use fractions::NumberFault;
use inductive_check::UpperCause;
use label_lines::LabCause;
use plan_text::PlanCause;
use rank_certificate::RankCause;
use std::alloc::{AllocError, Global};
use transition_lines::TraCause;
use values_reader::ValuesCause;

/// Returns why a text spells no probability.
pub fn number_cause(fault: NumberFault) -> &'static str
    ensures { result.now ≡ number_text fault }
{
    match fault {
        NumberFault::NotANumber => "NotANumber",
        NumberFault::TooManyDigits => "TooManyDigits",
        NumberFault::ZeroDenominator => "ZeroDenominator",
        NumberFault::TooFine => "TooFine",
        NumberFault::TooLarge => "TooLarge",
    }
}

fn choice_cause(
    alloc: Global,
    state: u32,
    choice: u32,
    fault: ChoiceFault,
) -> Result<String, AllocError>
    ensures { IfOk result (λ said. string_bytes said ≡ choice_text state choice fault) }
{
    let place = choice_place(alloc, state, choice)?;
    match fault {
        ChoiceFault::OutOfMemory => format!(in alloc; "OutOfMemory{place}"),
        ChoiceFault::TooFine { first, second } => {
            format!(in alloc; "TooFine{place} first {first} second {second}")
        }
        ChoiceFault::BadSum { sum, denominator } => {
            format!(in alloc; "BadSum{place} sum {sum} denominator {denominator}")
        }
    }
}

// Returns where a choice is.
fn choice_place(alloc: Global, state: u32, choice: u32) -> Result<String, AllocError>
    ensures { IfOk result (λ said. string_bytes said ≡ choice_place_text state choice) }
{
    format!(in alloc; " state {state} choice {choice}")
}

/// Returns why a text denotes no game.
pub fn tra_cause(alloc: Global, cause: TraCause) -> Result<String, AllocError>
    ensures { IfOk result (λ said. string_bytes said ≡ tra_text cause) }
{
    match cause {
        TraCause::OutOfMemory => String::from_str(alloc, "OutOfMemory"),
        TraCause::NoHeader => String::from_str(alloc, "NoHeader"),
        TraCause::BadField => String::from_str(alloc, "BadField"),
        TraCause::FieldCount => String::from_str(alloc, "FieldCount"),
        TraCause::OverLimit => String::from_str(alloc, "OverLimit"),
        TraCause::NoStates => String::from_str(alloc, "NoStates"),
        TraCause::StateOutOfRange => String::from_str(alloc, "StateOutOfRange"),
        TraCause::Number(fault) => {
            let name = number_cause(fault);
            format!(in alloc; "Number {name}")
        }
        TraCause::ActionClash { state, choice } => {
            format!(in alloc; "ActionClash state {state} choice {choice}")
        }
        TraCause::LineCount { read, stated } => {
            format!(in alloc; "LineCount read {read} stated {stated}")
        }
        TraCause::ChoiceGap { state, choice } => {
            format!(in alloc; "ChoiceGap state {state} choice {choice}")
        }
        TraCause::TooManyChoices { state } => format!(in alloc; "TooManyChoices state {state}"),
        TraCause::ChoiceCount { read, stated } => {
            format!(in alloc; "ChoiceCount read {read} stated {stated}")
        }
        TraCause::Choice {
            state,
            choice,
            fault,
        } => choice_cause(alloc, state, choice, fault),
    }
}

/// Returns why a text denotes no labels, or no owners.
pub fn lab_cause(alloc: Global, cause: LabCause) -> Result<String, AllocError>
    ensures { IfOk result (λ said. string_bytes said ≡ lab_text cause) }
{
    match cause {
        LabCause::OutOfMemory => String::from_str(alloc, "OutOfMemory"),
        LabCause::NoHeader => String::from_str(alloc, "NoHeader"),
        LabCause::BadHeader => String::from_str(alloc, "BadHeader"),
        LabCause::DoubleName => String::from_str(alloc, "DoubleName"),
        LabCause::DoubleIndex => String::from_str(alloc, "DoubleIndex"),
        LabCause::BadField => String::from_str(alloc, "BadField"),
        LabCause::StateOutOfRange => String::from_str(alloc, "StateOutOfRange"),
        LabCause::UnknownIndex => String::from_str(alloc, "UnknownIndex"),
        LabCause::OverLimit => String::from_str(alloc, "OverLimit"),
        LabCause::TwoOwners { state } => format!(in alloc; "TwoOwners state {state}"),
    }
}

/// Returns why a text is no formula.
pub fn formula_cause(alloc: Global, cause: FormulaCause) -> Result<String, AllocError>
    ensures { IfOk result (λ said. string_bytes said ≡ formula_text cause) }
{
    match cause {
        FormulaCause::OutOfMemory => String::from_str(alloc, "OutOfMemory"),
        FormulaCause::Unexpected => String::from_str(alloc, "Unexpected"),
        FormulaCause::End => String::from_str(alloc, "End"),
        FormulaCause::TooDeep => String::from_str(alloc, "TooDeep"),
        FormulaCause::BadNumber(fault) => {
            let name = number_cause(fault);
            format!(in alloc; "BadNumber {name}")
        }
        FormulaCause::ThresholdOutOfRange => String::from_str(alloc, "ThresholdOutOfRange"),
        FormulaCause::TooLong => String::from_str(alloc, "TooLong"),
        FormulaCause::BadSteps => String::from_str(alloc, "BadSteps"),
        FormulaCause::AskInside => String::from_str(alloc, "AskInside"),
    }
}

/// Returns why a text has no certificate.
pub fn plan_cause(cause: PlanCause) -> &'static str
    ensures { result.now ≡ plan_cause_text cause }
{
    match cause {
        PlanCause::OutOfMemory => "OutOfMemory",
        PlanCause::NoCertificate => "NoCertificate",
        PlanCause::Version => "Version",
        PlanCause::StateCount => "StateCount",
        PlanCause::BadLine => "BadLine",
        PlanCause::NumberOutOfRange => "NumberOutOfRange",
        PlanCause::MissingLine => "MissingLine",
        PlanCause::Places => "Places",
    }
}

/// Returns why an upper table, or a reply to it, is refused at a state.
pub fn upper_cause(alloc: Global, state: u32, cause: UpperCause) -> Result<String, AllocError>
    ensures { IfOk result (λ said. string_bytes said ≡ upper_text state cause) }
{
    match cause {
        UpperCause::OverOne => format!(in alloc; "OverOne state {state}"),
        UpperCause::Goal => format!(in alloc; "Goal state {state}"),
        UpperCause::Above { choice } => format!(in alloc; "Above state {state} choice {choice}"),
        UpperCause::NoReply => format!(in alloc; "NoReply state {state}"),
        UpperCause::Reply => format!(in alloc; "Reply state {state}"),
    }
}

/// Returns why values, choices and ranks are refused at a state.
pub fn ranks_cause(alloc: Global, state: u32, cause: RankCause) -> Result<String, AllocError>
    ensures { IfOk result (λ said. string_bytes said ≡ ranks_text state cause) }
{
    match cause {
        RankCause::Value => format!(in alloc; "Value state {state}"),
        RankCause::Choice => format!(in alloc; "Choice state {state}"),
        RankCause::Short { choice } => format!(in alloc; "Short state {state} choice {choice}"),
        RankCause::NoStep { choice } => format!(in alloc; "NoStep state {state} choice {choice}"),
    }
}

/// Returns why a text has no values.
pub fn values_cause(cause: ValuesCause) -> &'static str
    ensures { result.now ≡ values_text cause }
{
    match cause {
        ValuesCause::BadField => "BadField",
        ValuesCause::StateOutOfRange => "StateOutOfRange",
        ValuesCause::DoubleState => "DoubleState",
        ValuesCause::LineCount => "LineCount",
    }
}
