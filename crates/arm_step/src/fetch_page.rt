//! The page that the core is in: where its words lie in the store, so that a word is fetched without
//! a look-up of its page.
#![tactic(auto)]

mod fetch_page;

pub use fetch_page::FetchPage;
