// What any code of numbers has in common, whatever its symbols are: rows as strings, and the parse of a string. There are no functions here.
#![tactic(auto)]
