// What a report says when it is read as a calendar: definitions and laws, no code.
// What is promised of a report's bytes rests on it.
#![tactic(auto)]
