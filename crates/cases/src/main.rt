// The cases that the documents work by hand, the limits and crowded problems, each run and compared.
#![tactic(auto)]

mod again;
mod crowded;
mod damaged;
mod document_000;
mod document_001;
mod document_003;
mod document_004;
mod document_01;
mod document_02;
mod limits;
mod moves;

// Document by document, and then our own.
fn main() {
    document_01::run();
    document_02::run();
    damaged::run();
    moves::run();
    again::run();
    document_000::run();
    document_001::run();
    document_003::run();
    document_004::run();
    limits::run();
    crowded::run();
}
