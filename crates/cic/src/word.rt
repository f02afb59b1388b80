// The words of the steps on lent arrays.
pub use lent::word::Word;
