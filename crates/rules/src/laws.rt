// The laws that every run obeys, each named by the contract of a function that anyone may call.
