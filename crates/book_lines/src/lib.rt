// The lines of the book: each rule as a binding is printed, and the record of the report's appendix that it comes from.
#![tactic(auto)]

ghost use Rattle.std.specs.Prelude.{◌≡◌, ◌+◌, ◌++◌, ◌≤◌, length};
ghost use Rattle.book_lines.specs.BookLines as B;

use book::Rule;
use text::Text;

// The names of the records in the book's order. A companion comes from none and has a -.
const RECORDS: [&str; 256] = [
    "AA1", "AA2", "AS1", "AS2", "AR1", "AR2", "SA1", "SA2", "SS", "-", "-", "SR", "RA1", "RA2",
    "-", "RS", "RR", "-", "IA2", "IA1", "-", "IS1", "IR1", "-", "-", "-", "DA2", "DA1", "-", "DS1",
    "DR1", "-", "-", "-", "-", "ZOZO", "ZOOE", "ZOAD1", "ZOOR2", "ZOOR1", "-", "OEZO", "OEOE",
    "OEAD1", "OEOR2", "OEOR1", "ADNE", "ADAD1", "ADAD2", "ADND1", "ADND2", "NDNE", "NDAD1",
    "NDAD2", "NDND1", "NDND2", "ORNE", "OROR1", "OROR2", "ORNR1", "ORNR2", "NRNE", "NROR1",
    "NROR2", "NRNR1", "NRNR2", "XRNE", "XRXR1", "XRXR2", "XRXN1", "XRXN2", "XNNE", "XNXR1",
    "XNXR2", "XNXN1", "XNXN2", "LDNE", "LDAD2", "LDAD1", "LDOR2", "LDOR1", "LDLD", "-", "LDLN",
    "LDRN", "RDNE", "RDAD2", "RDAD1", "RDOR2", "RDOR1", "RDLD", "RDRD", "RDLN", "RDRN", "LNNE",
    "LNAD2", "LNAD1", "LNOR2", "LNOR1", "LNLD", "LNRD", "LNLN", "-", "RNNE", "RNAD2", "RNAD1",
    "RNOR2", "RNOR1", "RNLD", "RNRD", "RNLN", "RNRN", "LINE", "LILI", "LIRI", "-", "LIRL", "RINE",
    "-", "RIRI", "RILL", "-", "LLNE", "-", "LLRI", "LLLL", "LLRL", "RLNE", "RLLI", "-", "RLLL",
    "RLRL", "EQAD1", "EQAD2", "EQAD3", "EQAD4", "EQSB1", "EQSB3", "EQSB2", "EQSB4", "EQRB1",
    "EQRB3", "EQRB2", "EQRB4", "EQXR1", "EQXR3", "EQXR2", "EQXR4", "EQXN1", "EQXN3", "EQXN2",
    "EQXN4", "EQEQ1", "-", "EQEQ2", "-", "EQNEQ1", "-", "-", "-", "NQAD1", "NQAD2", "NQAD3",
    "NQAD4", "NQSB1", "NQSB3", "NQSB2", "NQSB4", "NQRB1", "NQRB3", "NQRB2", "NQRB4", "NQXR1",
    "NQXR3", "NQXR2", "NQXR4", "NQXN1", "NQXN3", "NQXN2", "NQXN4", "NQEQ1", "-", "NQEQ2", "-",
    "NQNQ1", "-", "NQNQ2", "-", "-", "-", "-", "-", "-", "-", "-", "-", "-", "-", "-", "-", "GTGT",
    "-", "-", "-", "GTLQ", "-", "-", "-", "-", "-", "-", "-", "-", "-", "-", "-", "-", "-",
    "LTLT1", "-", "LTGQ", "-", "-", "-", "-", "-", "-", "-", "-", "-", "-", "-", "-", "-", "-",
    "GQLT", "GQGQ", "-", "-", "-", "-", "-", "-", "-", "-", "-", "-", "-", "-", "-", "-", "LQGT",
    "-", "-", "LQLQ1", "-",
];

// Puts the name of the record that a rule comes from.
#[tactic(auto, unfolding(crate::specs::BookLines::records, crate::specs::BookLines::record_of, book::specs::Book::book))]
fn put_record<const ROOM: usize>(rule: Rule, line: &mut Text<ROOM>)
    requires { length line.old + B.most_record_bytes ≤ ROOM }
    ensures short { length line.new ≤ length line.old + B.most_record_bytes }
    ensures text { line.new ≡ line.old ++ B.record_of rule.index }
{
    line.put_entry(&RECORDS, rule.index);
}

// Puts the line of a rule.
#[tactic(auto, unfolding(crate::specs::BookLines::rule_line))]
pub fn put_rule<const ROOM: usize>(rule: Rule, line: &mut Text<ROOM>)
    requires { length line.old + B.most_rule_bytes ≤ ROOM }
    ensures short { length line.new ≤ length line.old + B.most_rule_bytes }
    ensures text { line.new ≡ line.old ++ B.rule_line rule.index }
{
    listing::put_binding(rule.word(), line);
    line.put(b" ");
    put_record(rule, line);
    line.put(b"\n");
}
