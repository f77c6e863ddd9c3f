//! Laws of the words that hold of the definitions alone: the contracts of functions that do nothing.
ghost use Rattle.std.specs.Prelude.{◌≡◌, ◌↔◌, ◌≢◌, List, Some, true, codes, slice_index};
ghost use Rattle.ops_jobs.specs.CommandLine.{Word, Piece, files_of, is_mode, is_option, is_raised, job_of, pieces_of, value_of};
ghost use Rattle.ops_jobs.specs.Laws.{IsExplanation, IsWorkload, KeepsLimits, SayTheSame, Spells};
ghost use Rattle.ops_jobs.specs.declared.jobs.Job.{Job};
ghost use Rattle.ops_jobs.specs.declared.jobs.Job.TheVariants.{Net};

/// Words are cut into pieces exactly where they spell them.
pub fn words_spell_their_pieces()
    ensures { (words : List Word) (pieces : List Piece) → (pieces_of words ≡ Some pieces) ↔ Spells words pieces }
{}

/// Words that say the same ask for the same job, wherever the options and flags stand among the files.
pub fn options_stand_anywhere()
    ensures { (words others : List Word) (ps qs : List Piece) → pieces_of words ≡ Some ps → pieces_of others ≡ Some qs → SayTheSame ps qs
        → job_of words ≡ job_of others }
{}

/// A job keeps the limits of its numbers and has a file.
pub fn jobs_keep_limits()
    ensures { (words : List Word) (job : Job) → job_of words ≡ Some job → KeepsLimits job }
{}

/// No value that begins with `-` fits.
pub fn no_value_is_dashed()
    ensures { (words : List Word) (job : Job) (pieces : List Piece) (option value : Word) → job_of words ≡ Some job → pieces_of words ≡ Some pieces
        → is_option option ≡ true → value_of option pieces ≡ Some value → slice_index value 0 ≢ 45 }
{}

/// Where `--net` stands, the job is the network of the files, whatever the options say.
pub fn networks_have_no_options()
    ensures { (words : List Word) (job : Job) (pieces : List Piece) → job_of words ≡ Some job → pieces_of words ≡ Some pieces
        → is_raised (codes "net") pieces ≡ true → job ≡ Net (files_of pieces) }
{}

/// Where `--gen` stands, the job is the workload of the seed and the size that the two names spell.
pub fn workloads_are_of_two_numbers()
    ensures { (words : List Word) (job : Job) (pieces : List Piece) → job_of words ≡ Some job → pieces_of words ≡ Some pieces
        → is_raised (codes "gen") pieces ≡ true → IsWorkload pieces job }
{}

/// Where `--why` stands, the job explains the program of the files, with the options.
pub fn explanations_are_of_files()
    ensures { (words : List Word) (job : Job) (pieces : List Piece) → job_of words ≡ Some job → pieces_of words ≡ Some pieces
        → is_raised (codes "why") pieces ≡ true → IsExplanation pieces job }
{}

/// No two of `--gen`, `--net` and `--why` stand together.
pub fn flags_stand_alone()
    ensures { (words : List Word) (job : Job) (pieces : List Piece) (one other : Word) → job_of words ≡ Some job → pieces_of words ≡ Some pieces
        → is_mode one ≡ true → is_mode other ≡ true → is_raised one pieces ≡ true → is_raised other pieces ≡ true → one ≡ other }
{}
