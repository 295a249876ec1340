// A second account of binds and releases: what is bound is a plain list of rules, in the order in which they came, and what a bind is
// refused for is asked of the reference.
use accounts::reading::recipe_in;
use accounts::sound::BenchWords;
use bench_calls::steps::Step;
use reference::answer::{Answer, Given, Subject, refused, wrong};
use reference::recipe::fields_of;
use reference::refusal::recipe_fits;
use reference::trial::is_right;
use testing::kinds::Kind;
use testing::words::Words;

// Of a function there is one rule at most.
#[derive(Clone, Copy)]
pub struct List {
    rules: Words<27>,
}

impl List {
    pub fn empty() -> List {
        List {
            rules: Words::empty(),
        }
    }

    pub fn rules(&self) -> &[u32] {
        self.rules.written()
    }

    // The index of a function's rule.
    fn index_of(&self, function: u32) -> Option<usize> {
        self.rules()
            .iter()
            .position(|rule| fields_of(*rule).source == function)
    }

    fn with(self, rule: u32) -> List {
        let mut rules = self.rules;
        rules.push(rule);
        List { rules }
    }

    // Without a function's rule: those behind it move up.
    fn without(self, function: u32) -> List {
        let mut list = List::empty();
        for rule in self.rules() {
            if fields_of(*rule).source != function {
                list = list.with(*rule);
            }
        }
        list
    }

    // After a step that was done.
    pub fn after(self, step: Step) -> List {
        match step {
            Step::Bind(rule) => self.with(rule),
            Step::Release(function) => self.without(function),
        }
    }
}

fn bind_answer(bench: &BenchWords, list: List, rule: u32) -> Answer {
    if let Err(fault) = recipe_fits(rule) {
        return Err(refused(Subject::Word, fault, 0));
    }
    let fields = fields_of(rule);
    let source = bench.sources.entry_of(Kind::Source, fields.source);
    let target = bench.targets.entry_of(Kind::Target, fields.target);
    if source.is_none() || (target.is_none() && fields.target != 0) {
        return Err(refused(Subject::Word, 8, 0));
    }
    let place = fields.source as usize;
    if list.index_of(fields.source).is_some() {
        return Err(refused(Subject::Word, 21, place));
    }
    if !is_right(recipe_in(&bench.targets.words, rule), bench.width) {
        return Err(wrong(Subject::Word, fields.source, true));
    }
    Ok(Given::Nothing)
}

fn release_answer(list: List, function: u32) -> Answer {
    match list.index_of(function) {
        Some(_) => Ok(Given::Nothing),
        None => Err(refused(Subject::Word, 24, function as usize)),
    }
}

// What a step on a bench with these tables answers, this list being bound.
pub fn answer_to(bench: &BenchWords, list: List, step: Step) -> Answer {
    match step {
        Step::Bind(rule) => bind_answer(bench, list, rule),
        Step::Release(function) => release_answer(list, function),
    }
}

// The bench with these tables on which the list is bound, and its count.
pub fn bench_of(tables: BenchWords, list: List) -> BenchWords {
    let mut bench = tables;
    for rule in list.rules() {
        bench = bench.with_rule(*rule);
    }
    bench.counted()
}
