// What each packet changes in the bytes of a state. Instants are stored ones: less 3.
pub mod cols;
pub mod rows;
