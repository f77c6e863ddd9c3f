//! What the words of the command line ask for: the jobs, and the definition of the words.
#![tactic(auto)]

mod file_list;
mod jobs;
mod laws;

pub use file_list::FileList;
pub use jobs::{
    DEFAULT_LIMIT, DEFAULT_LINES, DEFAULT_WORKERS, Engine, GREATEST_LIMIT, GREATEST_LINES,
    GREATEST_SEED, GREATEST_SIZE, GREATEST_WORKERS, Job, Options,
};
pub use laws::{
    explanations_are_of_files, flags_stand_alone, jobs_keep_limits, networks_have_no_options,
    no_value_is_dashed, options_stand_anywhere, words_spell_their_pieces,
    workloads_are_of_two_numbers,
};
