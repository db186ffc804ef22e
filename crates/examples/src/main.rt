// Worked examples of every layer and every call, run and compared with stored output: for each group a heading, then
// its lines. A line has words in decimals with a space between; what a call said comes first, as number and place.
#![tactic(auto)]

mod assignments;
mod basis_values;
mod circuits;
mod field_words;
mod marked_lines;
mod polynomials;
mod printing;
mod row_sums;
mod samples;

fn main() {
    field_words::examples();
    polynomials::examples();
    basis_values::examples();
    circuits::examples();
    assignments::examples();
    row_sums::examples();
    marked_lines::examples();
}
