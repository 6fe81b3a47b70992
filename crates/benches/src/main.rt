//! Times what the libraries do: `benches distances`, `benches plan` and `benches book`, each with the numbers that its
//! function says. The scripts of `bench/` call it.
#![tactic(auto)]

mod book;
mod distances;
mod growth;
mod plan;
mod rounds;
mod times;
mod words;

use anyhow::{Result, bail};
use book::time_book;
use distances::time_distances;
use plan::time_plan;
use std::env;

fn main(rt: HostRuntime) -> Result<()> {
    let words: Vec<String> = env::args(&rt)?.collect(rt.alloc())?;
    match words.get(1).map(|word| word.as_str()) {
        Some("distances") => time_distances(&rt, &words),
        Some("plan") => time_plan(&rt, &words),
        Some("book") => time_book(&rt, &words),
        _ => bail!("distances, plan or book is wanted"),
    }
}
