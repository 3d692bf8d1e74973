// What a level file is: its text, and how it is read, line by line and word by word.
#![tactic(auto)]
