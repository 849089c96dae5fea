// The tables, by what is asked of their cases.
pub mod certificates;
pub mod deletes;
pub mod guards;
pub mod implied;
pub mod lists;
pub mod meeting;
pub mod own;
pub mod spoilers;
pub mod steps;
