// Loading a text into a keeper: readers of terms, sentences and blocks.
#![tactic(auto)]

mod blocks;
mod collecting;
mod ends;
mod keeping;
mod left;
mod loader;
mod loading;
mod reader;
mod reading;

pub use loader::Loader;
