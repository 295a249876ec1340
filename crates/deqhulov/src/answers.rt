// Each call's answer in document 01's numbers.
ghost use Rattle.std.specs.Prelude.{◌≡◌};
ghost use Rattle.alu.specs.Evaluate as E;
ghost use Rattle.verdict.specs.Verdicts as J;
ghost use Rattle.pricer.specs.Pricing as P;
ghost use Rattle.mapper.specs.Mapping as M;
ghost use Rattle.checker.specs.Check as C;
ghost use Rattle.report.specs.Told as D;

use bits::Ports;
use checker::CheckError;
use fitting::PairError;
use report::Report;
use verdict::Verdict;
use words::Refusal;

// The evaluator's answer.
pub fn of_evaluation(evaluation: Result<Ports, Refusal>) -> Report
    ensures { result ≡ D.report_of (E.paper_of evaluation) }
{
    match evaluation {
        Ok(ports) => Report::from(ports),
        Err(refusal) => Report::from(refusal),
    }
}

// The pricer's answer.
pub fn of_price(priced: Result<u32, PairError>) -> Report
    ensures { result ≡ D.report_of (P.paper_of priced) }
{
    match priced {
        Ok(count) => report::accepted().with_value(count as u64),
        Err(PairError::JobRefused(refusal)) => Report::from(refusal).with_value(0),
        Err(PairError::MappingRefused(refusal)) => Report::from(refusal).with_value(1),
        Err(PairError::Refused(refusal)) => Report::from(refusal),
    }
}

// The mapper's answer.
pub fn of_mapping(answer: Result<usize, Refusal>) -> Report
    ensures { result ≡ D.report_of (M.paper_of answer) }
{
    match answer {
        Ok(words) => report::accepted().with_value(words as u64),
        Err(refusal) => Report::from(refusal),
    }
}

// The checker's answer.
pub fn of_check(checked: Result<(), CheckError>) -> Report
    ensures { result ≡ D.report_of (C.paper_of checked) }
{
    match checked {
        Ok(()) => report::accepted(),
        Err(CheckError::JobRefused(refusal)) => Report::from(refusal).with_value(0),
        Err(CheckError::MappingRefused(refusal)) => Report::from(refusal).with_value(1),
        Err(CheckError::Refused(refusal)) => Report::from(refusal),
        Err(CheckError::Wrong(witness)) => Report::from(witness),
    }
}

// The judgement on a recipe.
pub fn of_judgement(judgement: Result<Verdict, Refusal>) -> Report
    ensures { result ≡ D.report_of (J.judgement_paper judgement) }
{
    match judgement {
        Ok(Verdict::Right) => report::accepted(),
        Ok(Verdict::Wrong(witness)) => Report::from(witness),
        Err(refusal) => Report::from(refusal),
    }
}
