mod columns;
mod letters;
mod marks;
mod numbers;
mod parities;
mod places;
mod sums;
mod words;
