// Cases of the file check: each clause of each question, alone and where two compete, and every stated least and greatest
// value with one more. An answer is the question's number and the line, or 0 and 0 where the file passes.
#![tactic(auto)]

#[cfg(test)]
mod files;
#[cfg(test)]
mod headings;
#[cfg(test)]
mod rows;
#[cfg(test)]
mod texts;
