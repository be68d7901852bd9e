//! What holds of the outcomes.
//!
//! Each of these functions does nothing. Its contract is the law, for a caller's proof to use.
ghost use Rattle.meet_laws.specs.Laws.{LeastCountsAreLengths};
ghost use Rattle.tcount_top.specs.Laws.{OneCommand, OneOutcome, OutcomesExist, PrintedOnce, LeastCountsExist, OneAnswerForOneMatrix, AnswersAreComplete};

use channel_rep::laws::tables_compare;
use clifford_rest::laws::permutations_have_circuits;
use coset_label::laws::tables_are_classes;
use count_checker::sameness_is_decided;
use level_laws::laws::{cosets_have_least_words, letters_come_off};
use meet_laws::laws::{least_counts_are_lengths, words_stand_behind_rests};
use printed_texts::printed_texts_read_back;
use qasm_lex::one_cut;
use qasm_reader::{one_halving, one_reading, read_circuits_are_small};
use tc_bridge::laws::{circuits_have_one_channel, one_channel_where_same};
use tc_ring::surd_laws_hold;

/// Words are at most one command.
pub fn one_command()
    ensures { OneCommand }
{}

/// Circuits with one matrix up to global phase, and so with one channel, are printed as the same bytes.
pub fn printed_once()
    ensures { PrintedOnce }
{
    // Called for their contracts: circuits of one matrix have one channel, so one least word, and what is left behind that
    // word is one channel too.
    surd_laws_hold();
    tables_compare();
    tables_are_classes();
    circuits_have_one_channel();
    one_channel_where_same();
    cosets_have_least_words();
    letters_come_off();
    words_stand_behind_rests();
}

/// Words and a text have at most one outcome: one status, and one list of bytes. Of the statuses of a text's circuit and a
/// bound within its limit, Found is that of a least T-count up to the bound and Above that of a greater one, and each circuit
/// of a text has a least T-count.
pub fn one_outcome()
    ensures one { OneOutcome }
    ensures counted { LeastCountsExist }
{
    // Called for their contracts: a text reads as one circuit or has one reason, circuits of one matrix have one channel, and
    // the print is one for each channel.
    circuits_have_one_channel();
    one_channel_where_same();
    one_cut();
    one_halving();
    one_reading();
    read_circuits_are_small();
    least_counts_are_lengths();
    printed_once();
    cosets_have_least_words();
}

/// The least T-count of a circuit is t exactly where the least word in the coset of its channel has t letters.
pub fn least_counts_are_those_of_words()
    ensures { LeastCountsAreLengths }
{
    // Called for its contract, which says so of every circuit.
    least_counts_are_lengths();
}

/// Words that are a command have an outcome for each text: with [`one_outcome`] exactly one.
pub fn outcomes_exist()
    ensures { OutcomesExist }
{
    // Called for their contracts: each circuit has a least word, what is left behind it is the channel of a circuit without T
    // gates, and two circuits are the same or not.
    letters_come_off();
    tables_compare();
    circuits_have_one_channel();
    least_counts_are_lengths();
    words_stand_behind_rests();
    permutations_have_circuits();
    printed_texts_read_back();
    one_halving();
    one_reading();
    read_circuits_are_small();
    sameness_is_decided();
}

/// Where the words are a command that accepts the source's content and no device failed, a run answers Found or Above, or memory
/// was wanting. It follows from what [`run`](crate::run) promises of its answers.
pub fn answers_are_complete()
    ensures { AnswersAreComplete }
{
    // Called for their contracts: a text has one reading, and one cut into two programs.
    one_halving();
    one_reading();
}

/// Texts whose circuits on as many qubits have one matrix up to global phase, and so one channel, have for each bound one
/// status and the same bytes, however their gates differ.
pub fn one_answer_for_one_matrix()
    ensures { OneAnswerForOneMatrix }
{
    // Called for their contracts: circuits of one matrix have one channel, so one least T-count, and one print.
    circuits_have_one_channel();
    one_channel_where_same();
    one_reading();
    read_circuits_are_small();
    least_counts_are_lengths();
    printed_once();
}
